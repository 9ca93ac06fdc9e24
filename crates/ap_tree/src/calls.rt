ghost use Rattle.std.specs.Prelude.{◌≡◌, ◌+◌, ◌-◌, ◌^◌, min, ◌≤◌, ◌==◌, IsTrue, IsFalse};
ghost use Rattle.std.specs.List.{list_any};

/// The calls of an object in memory, numbered from 1, of which the listed ones fail.
#[derive(Drop)]
pub(crate) struct Calls {
    failing: Vec<u64>,
    count: u64,
    faults: u64,
}

impl Calls {
    pub(crate) fn new(failing: Vec<u64>) -> Self
        ensures none { result.count ≡ 0 }
        ensures failing { result.failing.items ≡ failing.items }
        ensures faults { result.faults ≡ 0 }
    {
        Calls {
            failing,
            count: 0,
            faults: 0,
        }
    }

    /// Numbers the next call, and says whether it fails, which is counted.
    pub(crate) fn next_fails(&mut self) -> bool
        ensures numbered { self.new.count ≡ min (self.old.count + 1) (2 ^ 64 - 1) }
        ensures listed { result ≡ list_any (λ number. number == self.new.count) self.old.failing.items }
        ensures counted { IsTrue result → self.new.faults ≡ min (self.old.faults + 1) (2 ^ 64 - 1) }
        ensures uncounted { IsFalse result → self.new.faults ≡ self.old.faults }
        ensures later { self.old.faults ≤ self.new.faults }
        ensures same { self.new.failing.items ≡ self.old.failing.items }
    {
        self.count = self.count.saturating_add(1);
        let fails = self.failing.contains(&self.count);
        if fails {
            self.count_fault();
        }
        fails
    }

    pub(crate) fn count_fault(&mut self)
        ensures counted { self.new.faults ≡ min (self.old.faults + 1) (2 ^ 64 - 1) }
        ensures later { self.old.faults ≤ self.new.faults }
        ensures count { self.new.count ≡ self.old.count }
        ensures same { self.new.failing.items ≡ self.old.failing.items }
    {
        self.faults = self.faults.saturating_add(1);
    }

    pub(crate) fn faults(&self) -> u64
        ensures { result ≡ self.now.faults }
    {
        self.faults
    }
}
