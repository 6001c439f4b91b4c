// Counters of calls and of faults, which stay at their last value.
ghost use Rattle.std.specs.Prelude.{◌≡◌, ◌≤◌};
ghost use Rattle.desk_io.specs.Fault.{HasRisen, one_more};

/// Counts one more.
pub fn count(counter: &mut u64)
    ensures value { counter.new ≡ one_more counter.old }
    ensures later { counter.old ≤ counter.new }
    ensures risen { HasRisen counter.old counter.new }
{
    *counter = counter.saturating_add(1);
}
