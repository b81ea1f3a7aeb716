// The refusal that a recovery says, and the slot that it names.
ghost use Rattle.std.specs.Prelude.{◌≡◌};
ghost use Rattle.recovery.specs.inner.Judge.{found_fault, found_slot};

// More broken and void slots than this are refused with 25.
const BROKEN_LIMIT: u32 = 8;

// The refusal of the slots by what was found, else 0: 5, the fault of the lowest slot at fault, 7, 25, 8. `broken`
// counts void slots too.
pub fn found_fault(mark: bool, fault: u32, shared: bool, broken: u32, live: u32, n: u32) -> u32
    ensures result { result ≡ found_fault mark fault shared broken live n }
{
    if mark {
        return 5;
    }
    if fault != 0 {
        return fault;
    }
    if shared {
        return 7;
    }
    if BROKEN_LIMIT < broken {
        return 25;
    }
    if live == n {
        return 8;
    }
    0
}

// The slot that it names: 5 names none.
pub fn found_slot(mark: bool, slot: u32) -> u32
    ensures result { result ≡ found_slot mark slot }
{
    if mark {
        return 0;
    }
    slot
}
