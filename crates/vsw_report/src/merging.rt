//! Merging the lines of the callers of a port.

ghost use Rattle.std.specs.Prelude.{◌≡◌, ◌≤◌, ◌-◌, ◌++◌, ◌||◌, OnOk, IfOk, map};
ghost use Rattle.std.specs.List.{flat_map, list_any};
ghost use Rattle.vsw_report.specs.Line.{are_short, texts};
ghost use Rattle.vsw_report.specs.Order.{AllInCounts, all_lines, emptied, have_lines, in_order};
ghost use Rattle.vsw_report.specs.Steps.{first_entry, first_reads, lines_of_all, merged, past, past_entry, past_reads, reads_of_all};
ghost use Rattle.vsw_report.specs.Whole.{whole_text};

use crate::lines::Caller;
use crate::sheets::RoundText;
use vsw_base::NoMemory;

fn either(one: bool, more: bool) -> bool
    ensures { result ≡ (one || more) }
{
    one || more
}

/// Appends the reads of all callers at a count.
fn move_reads(callers: &mut [Caller], count: u32, out: &mut Vec<u8>) -> Result<bool, NoMemory>
    ensures text { OnOk result (out.new.items ≡ out.old.items ++ texts (flat_map (first_reads count) callers.old)) }
    ensures short { IfOk result (λ short. short ≡ are_short (flat_map (first_reads count) callers.old)) }
    ensures rest { OnOk result (callers.new ≡ map (past_reads count) callers.old) }
{
    let mut short = false;
    for place in 0..callers.len() {
        let told = callers[place].move_reads(count, out)?;
        short = either(short, told);
    }
    Ok(short)
}

/// Appends the entry of a count.
fn move_entry(callers: &mut [Caller], count: u32, out: &mut Vec<u8>) -> Result<bool, NoMemory>
    ensures text { OnOk result (out.new.items ≡ out.old.items ++ texts (flat_map (first_entry count) callers.old)) }
    ensures short { IfOk result (λ short. short ≡ are_short (flat_map (first_entry count) callers.old)) }
    ensures rest { OnOk result (callers.new ≡ map (past_entry count) callers.old) }
{
    let mut short = false;
    for place in 0..callers.len() {
        let told = callers[place].move_entry(count, out)?;
        short = either(short, told);
    }
    Ok(short)
}

/// Appends the reads at a count, those of workers first.
fn move_reads_of_all(
    workers: &mut [Caller],
    controllers: &mut [Caller],
    count: u32,
    out: &mut Vec<u8>,
) -> Result<bool, NoMemory>
    ensures text { OnOk result (out.new.items ≡ out.old.items ++ texts (reads_of_all count workers.old controllers.old)) }
    ensures short { IfOk result (λ short. short ≡ are_short (reads_of_all count workers.old controllers.old)) }
    ensures workers { OnOk result (workers.new ≡ map (past_reads count) workers.old) }
    ensures controllers { OnOk result (controllers.new ≡ map (past_reads count) controllers.old) }
{
    let one = move_reads(workers, count, out)?;
    let more = move_reads(controllers, count, out)?;
    Ok(either(one, more))
}

/// Appends the entry of a count, whoever's it is.
fn move_entry_of_all(
    workers: &mut [Caller],
    controllers: &mut [Caller],
    count: u32,
    out: &mut Vec<u8>,
) -> Result<bool, NoMemory>
    ensures text { OnOk result (out.new.items ≡ out.old.items ++ texts (flat_map (first_entry count) workers.old ++ flat_map (first_entry count) controllers.old)) }
    ensures short { IfOk result (λ short. short ≡ are_short (flat_map (first_entry count) workers.old ++ flat_map (first_entry count) controllers.old)) }
    ensures workers { OnOk result (workers.new ≡ map (past_entry count) workers.old) }
    ensures controllers { OnOk result (controllers.new ≡ map (past_entry count) controllers.old) }
{
    let one = move_entry(workers, count, out)?;
    let more = move_entry(controllers, count, out)?;
    Ok(either(one, more))
}

/// Appends the lines of a count: the reads, and then the entry.
fn move_count(
    workers: &mut [Caller],
    controllers: &mut [Caller],
    count: u32,
    out: &mut Vec<u8>,
) -> Result<bool, NoMemory>
    ensures text { OnOk result (out.new.items ≡ out.old.items ++ texts (lines_of_all count workers.old controllers.old)) }
    ensures short { IfOk result (λ short. short ≡ are_short (lines_of_all count workers.old controllers.old)) }
    ensures workers { OnOk result (workers.new ≡ past count workers.old) }
    ensures controllers { OnOk result (controllers.new ≡ past count controllers.old) }
{
    let reads = move_reads_of_all(workers, controllers, count, out)?;
    let entry = move_entry_of_all(workers, controllers, count, out)?;
    Ok(either(reads, entry))
}

/// Appends the lines at the counts from `before` up to `after`, but for the reads at `after`.
fn move_counts(
    workers: &mut [Caller],
    controllers: &mut [Caller],
    before: u32,
    after: u32,
    out: &mut Vec<u8>,
) -> Result<bool, NoMemory>
    requires counts { before ≤ after }
    ensures text { OnOk result (out.new.items ++ texts (reads_of_all after workers.new controllers.new) ≡ out.old.items ++ texts (merged workers.old controllers.old before (after - before))) }
    ensures short { IfOk result (λ short. (short || are_short (reads_of_all after workers.new controllers.new)) ≡ are_short (merged workers.old controllers.old before (after - before))) }
    ensures left { AllInCounts before (workers.old ++ controllers.old) after → OnOk result (AllInCounts after (workers.new ++ controllers.new) after) }
    ensures workers { OnOk result (emptied workers.new ≡ emptied workers.old) }
    ensures controllers { OnOk result (emptied controllers.new ≡ emptied controllers.old) }
{
    let mut next = before;
    let mut short = false;
    while next < after {
        let told = move_count(workers, controllers, next, out)?;
        short = either(short, told);
        next += 1;
    }
    Ok(short)
}

/// Appends the lines at the counts from `before` up to `after`, with the reads at `after`.
fn move_all(
    workers: &mut [Caller],
    controllers: &mut [Caller],
    before: u32,
    after: u32,
    out: &mut Vec<u8>,
) -> Result<bool, NoMemory>
    requires counts { before ≤ after }
    ensures text { OnOk result (out.new.items ≡ out.old.items ++ texts (merged workers.old controllers.old before (after - before))) }
    ensures short { IfOk result (λ short. short ≡ are_short (merged workers.old controllers.old before (after - before))) }
    ensures workers { OnOk result (emptied workers.new ≡ emptied workers.old) }
    ensures controllers { OnOk result (emptied controllers.new ≡ emptied controllers.old) }
{
    let counts = move_counts(workers, controllers, before, after, out)?;
    let reads = move_reads_of_all(workers, controllers, after, out)?;
    Ok(either(counts, reads))
}

/// Takes all lines from the callers, which keep their rooms.
fn clear(callers: &mut [Caller])
    ensures { callers.new ≡ emptied callers.old }
{
    if let Some((first, others)) = callers.split_first_mut() {
        first.clear();
        clear(others);
    }
}

/// Appends the lines of a port in the order of the report: at each count the reads, those of workers and then those of
/// controllers, and then the entry. Workers and controllers stand by their numbers, the lines of each in its order. Answers
/// whether one of them tells of want of memory. Each text is copied once, lines that go over together at once, and the
/// callers keep their rooms.
pub fn merge(
    workers: &mut [Caller],
    controllers: &mut [Caller],
    before: u32,
    after: u32,
    out: &mut Vec<u8>,
) -> Result<bool, NoMemory>
    requires counts { before ≤ after }
    ensures text { AllInCounts before (workers.old ++ controllers.old) after → OnOk result (out.new.items ≡ out.old.items ++ flat_map (λ l. l.text) (in_order (workers.old ++ controllers.old) before (after - before))) }
    ensures short { AllInCounts before (workers.old ++ controllers.old) after → IfOk result (λ short. short ≡ list_any (λ l. l.short) (in_order (workers.old ++ controllers.old) before (after - before))) }
    ensures workers { OnOk result (workers.new ≡ emptied workers.old) }
    ensures controllers { OnOk result (controllers.new ≡ emptied controllers.old) }
{
    let short = move_all(workers, controllers, before, after, out)?;
    clear(workers);
    clear(controllers);
    Ok(short)
}

/// Appends all lines of callers, caller by caller. A long text isn't copied: its room is taken.
fn move_rest(callers: &mut [Caller], out: &mut RoundText) -> Result<bool, NoMemory>
    ensures text { OnOk result (whole_text out.new ≡ whole_text out.old ++ texts (all_lines callers.old)) }
    ensures short { IfOk result (λ short. short ≡ are_short (all_lines callers.old)) }
    ensures rest { OnOk result (callers.new ≡ emptied callers.old) }
{
    let mut short = false;
    for place in 0..callers.len() {
        let told = callers[place].move_all(out)?;
        short = either(short, told);
    }
    Ok(short)
}

/// The same as `merge`, for a round's text. The lines of a caller aren't copied where they are many and all are reads at
/// `after`.
fn merge_rest(
    workers: &mut [Caller],
    controllers: &mut [Caller],
    before: u32,
    after: u32,
    out: &mut RoundText,
) -> Result<bool, NoMemory>
    requires counts { before ≤ after }
    ensures text { AllInCounts before (workers.old ++ controllers.old) after → OnOk result (whole_text out.new ≡ whole_text out.old ++ texts (in_order (workers.old ++ controllers.old) before (after - before))) }
    ensures short { AllInCounts before (workers.old ++ controllers.old) after → IfOk result (λ short. short ≡ are_short (in_order (workers.old ++ controllers.old) before (after - before))) }
    ensures workers { OnOk result (workers.new ≡ emptied workers.old) }
    ensures controllers { OnOk result (controllers.new ≡ emptied controllers.old) }
{
    let counts = move_counts(workers, controllers, before, after, &mut out.end)?;
    let one = move_rest(workers, out)?;
    let more = move_rest(controllers, out)?;
    Ok(either(counts, either(one, more)))
}

/// Whether one of these callers has lines.
fn have_lines(callers: &[Caller]) -> bool
    ensures { result ≡ have_lines callers.now }
{
    for caller in callers {
        if caller.has_lines() {
            return true;
        }
    }
    false
}

/// The same as `merge`, for a round's text. The lines of one worker alone stand in the order of the report, and aren't copied
/// where they are many. Nor are those of a caller among others where all are reads at `after`.
pub fn merge_text(
    workers: &mut [Caller],
    controllers: &mut [Caller],
    before: u32,
    after: u32,
    out: &mut RoundText,
) -> Result<bool, NoMemory>
    requires counts { before ≤ after }
    ensures text { AllInCounts before (workers.old ++ controllers.old) after → OnOk result (whole_text out.new ≡ whole_text out.old ++ flat_map (λ l. l.text) (in_order (workers.old ++ controllers.old) before (after - before))) }
    ensures short { AllInCounts before (workers.old ++ controllers.old) after → IfOk result (λ short. short ≡ list_any (λ l. l.short) (in_order (workers.old ++ controllers.old) before (after - before))) }
    ensures workers { OnOk result (workers.new ≡ emptied workers.old) }
    ensures controllers { OnOk result (controllers.new ≡ emptied controllers.old) }
{
    match workers {
        [worker] if !have_lines(controllers) => worker.move_all(out),
        _ => merge_rest(workers, controllers, before, after, out),
    }
}
