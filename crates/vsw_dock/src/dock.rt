//! A port at which actors work.

ghost use Rattle.std.specs.Prelude.{◌≡◌, ◌≤◌, ◌<◌, ◌+◌, [], IfOk, Ok, false, length, true};
ghost use Rattle.vsw_base.specs.Frame.{Parts, frame_of};
ghost use Rattle.vsw_flows.specs.Flows.{IsOf};
ghost use Rattle.vsw_actors.specs.Work.{job_in};
ghost use Rattle.vsw_actors.specs.declared.work.Work.TheVariants as work;
ghost use Rattle.vsw_actors.specs.Actors.{handed};
ghost use Rattle.vsw_actors.specs.Lanes.{CrossesTold};
ghost use Rattle.vsw_actors.specs.declared.work.Work.{Work};
ghost use Rattle.vsw_dock.specs.Docks.{HasRoom, fits, holds, is_of, parcel_in, pass_in, permits, port_in, tells};
ghost use Rattle.vsw_port.specs.Calls.{job_doer};
ghost use Rattle.vsw_promise.specs.Rounds as promise;
ghost use Rattle.vsw_dock.specs.Private.Does.{HandsPacket};
ghost use Rattle.vsw_policy.specs.Sound.{Each};
ghost use Rattle.vsw_rows.specs.GoodRows.{opening_of};

use crate::parcel::Parcel;
use crate::station::Station;
use std::alloc::Global;
use std::marker::Model;
use std::sync::Wait;
use vsw_actors::{Packet, Port, RowPort, Work};
use vsw_answer::Watch;
use vsw_base::{Mac, NoMemory};
use vsw_live::{LivePort, Naming};

/// A port of the policy, shared by threads. Any actor with a station there may do its jobs. It hands packets on to the ports of some addresses.
#[derive(Drop)]
pub struct Dock<'g, J: Naming, G> {
    number: u16,
    mac: Mac,
    locals: Vec<Mac>,
    port: LivePort<J>,
    watch: &'g G,
}

impl<'g, J: Naming, G> Model for Dock<'g, J, G> {
    ghost use Rattle.std.specs.Prelude.{◌≤◌, length};
    ghost use Rattle.vsw_dock.specs.Seen.{DockSeen};

    ghost Value = { DockSeen };

    ghost view = { λ d. record { number = d.number; mac = d.mac; locals = d.locals.items; live = d.port } };

    ghost invariant = { λ d. length d.locals.items ≤ 16 };
}

impl<'g, J: Naming, G> Dock<'g, J, G> {
    /// The port of this number and address in the policy, which hands packets on to the ports of these addresses.
    pub fn new(
        number: u16,
        mac: Mac,
        locals: Vec<Mac>,
        port: LivePort<J>,
        watch: &'g G,
    ) -> Dock<'g, J, G>
        requires { length locals.items ≤ 16 }
        ensures { result ≡ record { number = number; mac = mac; locals = locals.items; live = port } }
    {
        Dock {
            number,
            mac,
            locals,
            port,
            watch,
        }
    }

    /// Its number in the policy.
    pub fn number(&self) -> u16
        ensures { result ≡ self.now.number }
    {
        self.number
    }

    /// Its address.
    pub fn mac(&self) -> Mac
        ensures { result ≡ self.now.mac }
    {
        self.mac
    }

    /// What threads share of it.
    pub fn port(&self) -> &LivePort<J>
        ensures { result.now ≡ self.now.live }
    {
        &self.port
    }
}

impl<'g, J: Naming, G: Watch> Dock<'g, J, G> {
    /// A packet is carried by its worker, and the watch is told its answer. Answers whether it left for another of these ports: then the
    /// parcel holds it.
    fn carry<R: Wait>(
        &self,
        rt: &R,
        station: &mut Station,
        packet: &Packet<'_>,
        locals: &[Mac],
        parcel: &mut Parcel,
    ) -> bool
        requires of { IsOf self.now.live.looking station.old.pass }
        requires worker { packet.now.worker ≡ station.old.pass.view.number }
        requires permit { 0 < station.old.pass.view.permits }
        requires frame { (parts : Parts) × (frame_of packet.now.bytes.now ≡ Ok parts) }
        requires few { length locals.now ≤ 16 }
        requires room { HasRoom locals.now parcel.old }
        ensures does { HandsPacket (opening_of self.now.live.looking.1) locals.now packet.now (handed result (parcel_in parcel.new)) station.old station.new }
        ensures holds { result ≡ true → holds parcel.new }
        ensures room { parcel.old.room ≤ parcel.new.room }
    {
        let (answer, handed) = station.carry(rt, &self.port, packet, locals, parcel);
        self.watch.answered(packet.worker, packet.number, &answer);
        handed
    }
}

/// Whether one of these ports hands packets on.
fn hand_on<'g, J: Naming, G>(docks: &[Dock<'g, J, G>]) -> bool
    ensures { result ≡ false → Each (λ d. d.locals ≡ []) docks.now }
{
    match docks.split_first() {
        None => false,
        Some((dock, others)) => !dock.locals.is_empty() || hand_on(others),
    }
}

impl<'w, 'g, J: Naming, G: Watch> Port<Work<'w>> for Dock<'g, J, G> {
    ghost use Rattle.vsw_actors.specs.Work.{job_in};
    ghost use Rattle.vsw_dock.specs.Docks.{fits, holds, is_of, locals, parcel_in, pass_in, permits, port_in, takes, tells};

    type Station = Station;

    type Parcel = Parcel;

    ghost port_in = { port_in };

    ghost locals = { locals };

    ghost pass_in = { pass_in };

    ghost job_in = { job_in };

    ghost tells = { tells };

    ghost is_of = { is_of };

    ghost permits = { permits };

    ghost takes = { takes };

    ghost fits = { fits };

    ghost holds = { holds };

    ghost parcel_in = { parcel_in };

    fn parcel(alloc: Global, ports: &[Self]) -> Result<Parcel, NoMemory>
        ensures { IfOk result (λ parcel. Each (λ d. (w : Work) → fits d w parcel) ports.now) }
    {
        if hand_on(ports) {
            Parcel::new(alloc)
        } else {
            Ok(Parcel::none(alloc))
        }
    }

    fn work<R: Wait>(
        &self,
        rt: &R,
        _alloc: Global,
        station: &mut Station,
        _place: usize,
        job: &Work<'w>,
        parcel: &mut Parcel,
    ) -> bool {
        match job {
            Work::Packet(packet) => self.carry(rt, station, packet, &self.locals, parcel),
            Work::Line(line) => {
                station.ask(rt, &self.port, line);
                false
            }
        }
    }

    fn receive<R: Wait>(&self, rt: &R, alloc: Global, station: &mut Station, parcel: &Parcel)
        requires station { is_of self.now station.old }
        requires own { job_doer (port_in self.now).controllers (parcel_in parcel.now).1 ≡ (pass_in station.old).number }
        requires permit { 0 < permits station.old }
        requires holds { holds parcel.now }
        ensures crosses { CrossesTold pass_in tells (promise.opening_of (port_in self.now)) (parcel_in parcel.now).1 station.old station.new }
        ensures station { is_of self.now station.new }
        ensures permits { permits station.old ≤ permits station.new + 1 }
    {
        let mut none = Parcel::none(alloc);
        let packet = parcel.packet();
        self.carry(rt, station, &packet, &[], &mut none);
    }

    fn place(parcel: &Parcel) -> usize
        ensures { result ≡ (parcel_in parcel.now).0 }
    {
        parcel.port() as usize
    }
}

impl<'g, J: Naming, G> RowPort for Dock<'g, J, G> {
    ghost row_count = { λ d. d.live.looking.2 };

    fn rows(&self) -> u32 {
        self.port.rows()
    }

    fn reconcile<R: Wait>(&self, rt: &R, row: u32) {
        self.port.reconcile(rt, row);
    }
}
