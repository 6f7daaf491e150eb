//! What holds of commands.

ghost use Rattle.vsw_policy.specs.Law.{TestsAscend, LeastIsTold};
ghost use Rattle.vsw_policy.specs.Own.{ObeysAlone, SameIsEqual};

/// A controller is answered, and finds its layers afterwards, as if there were no others. Rules compare
/// as equal exactly where they are. A command is refused for the least number of all tests that apply,
/// since the tests stand in the order of the numbers.
pub fn laws()
    ensures alone { ObeysAlone }
    ensures same { SameIsEqual }
    ensures ascending { TestsAscend }
    ensures least { LeastIsTold }
{}
