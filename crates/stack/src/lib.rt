// The call stack: eight return addresses, passed by value and handed back with their depth.
//
// No function requires anything of a depth: a push without room and a pop of nothing hand back what
// they were given.
#![tactic(auto)]

ghost use Rattle.std.specs.Prelude.{◌≡◌, eqb, set};
ghost use Rattle.words.specs.Word.{pick};
ghost use Rattle.stack.specs.Laws.{Laws};
ghost use Rattle.stack.specs.Stack.{emptied, pushed, popped};

// The entries below `depth` are in use.
#[derive(Clone, Copy)]
pub struct Stack {
    pub entries: [u16; 8],
    pub depth: u8,
}

// What a pop hands back: 0 where no address was on the stack, as the law `pop_empty` has it, and no Option.
#[derive(Clone, Copy)]
pub struct Popped {
    pub stack: Stack,
    pub back: u16,
}

// A stack with no address on it.
pub fn empty() -> Stack
    ensures { result ≡ emptied }
{
    Stack {
        entries: [0u16; 8],
        depth: 0,
    }
}

// The entry of a place, once an address goes to some place.
fn entry_with(place: u8, entry: u16, at: u8, address: u16) -> u16
    ensures { result ≡ pick (eqb place at) address entry }
{
    if place == at { address } else { entry }
}

// The entries with an address at a place. All eight are made anew, which the compiler does in one
// machine register; after a store of one of them, a load of all eight would wait for memory, and of
// `array::from_fn` it makes a jump by the place.
fn with_entry(entries: [u16; 8], at: u8, address: u16) -> [u16; 8]
    ensures { result ≡ set entries at address }
{
    [
        entry_with(0, entries[0], at, address),
        entry_with(1, entries[1], at, address),
        entry_with(2, entries[2], at, address),
        entry_with(3, entries[3], at, address),
        entry_with(4, entries[4], at, address),
        entry_with(5, entries[5], at, address),
        entry_with(6, entries[6], at, address),
        entry_with(7, entries[7], at, address),
    ]
}

// Puts a return address on the stack, or hands the stack back as it was where it is full. The eight entries
// come by value beside their depth, as the paper passes them.
#[tactic(auto, unfolding(crate::specs::Stack::pushed))]
pub fn push(entries: [u16; 8], depth: u8, back: u16) -> Stack
    ensures { result ≡ pushed entries depth back }
{
    if depth < 8 {
        let deeper = depth + 1;
        Stack {
            entries: with_entry(entries, depth, back),
            depth: deeper,
        }
    } else {
        Stack {
            entries: entries,
            depth: depth,
        }
    }
}

// Takes the last return address off the stack, whose entry becomes 0. Where there is none, or more
// than eight are said to be in use, the stack comes back as it was, and 0.
#[tactic(auto, unfolding(crate::specs::Stack::popped))]
pub fn pop(entries: [u16; 8], depth: u8) -> Popped
    ensures { result ≡ popped entries depth }
{
    if 0 < depth && depth <= 8 {
        let less = depth - 1;
        let back = entries[usize::from(less)];
        Popped {
            stack: Stack {
                entries: with_entry(entries, less, 0),
                depth: less,
            },
            back: back,
        }
    } else {
        Popped {
            stack: Stack {
                entries: entries,
                depth: depth,
            },
            back: 0,
        }
    }
}

// The laws of the call stack, held to be proved: the function does nothing.
pub fn laws()
    ensures { Laws }
{}
