// Calls that are repeated.

// What the last of so many calls gives, of one at least, each with its number i from 0 on, and after a first step where there is one.
// form: a macro, since a generic function copies the closure's result once more: 3,860 instructions in each repeat of C, which takes 2,950.
macro_rules! last_of {
    ($repeats:expr, $i:ident => $call:expr) => {
        last_of!($repeats, $i => (); $call)
    };
    ($repeats:expr, $i:ident => $first:expr; $call:expr) => {{
        let $i: u32 = 0;
        $first;
        let mut last = $call;
        for $i in 1..$repeats {
            $first;
            last = $call;
        }
        last
    }};
}

pub(crate) use last_of;
