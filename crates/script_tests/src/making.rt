//! Made scripts: their fixed lines, and the lines of some states.
use crate::wanted::{has, holds, sums};
use script_make::{MakeState, boot_line, line_of};
use std::process::Abort;

const FIXED: [(usize, &[u8]); 4] = [
    (
        0,
        b"zygote class Node java.lang.Object next:ref other:ref id:int",
    ),
    (8, b"zygote new r7 Node"),
    (9, b"zygote array t ref 64"),
    (10, b"zygote seal"),
];

/// The fixed line of a number.
fn has_fixed(rt: &impl Abort, k: usize, line: &[u8]) {
    let mut buf = [0; 96];
    match boot_line(k, &mut buf) {
        Some(end) if end <= 96 => has(rt, &buf[..end], line),
        _ => holds(rt, false),
    }
}

#[test]
fn fixed_lines(rt: HostRuntime) {
    for (k, line) in FIXED {
        has_fixed(&rt, k, line);
    }
    holds(&rt, boot_line(11, &mut [0; 96]).is_none());
}

/// A state, the line made in it, and the state after that.
struct Made {
    x: u32,
    forks: u32,
    line: &'static [u8],
    next_x: u32,
    next_forks: u32,
}

const MADE: [Made; 6] = [
    Made {
        x: 1,
        forks: 0,
        line: b"zygote set r1 next r3",
        next_x: 1147902781,
        next_forks: 0,
    },
    Made {
        x: 228,
        forks: 5,
        line: b"a0 fork a5",
        next_x: 1412319056,
        next_forks: 6,
    },
    Made {
        x: 228,
        forks: 6,
        line: b"a5 gc",
        next_x: 1412319056,
        next_forks: 6,
    },
    Made {
        x: 4,
        forks: 3,
        line: b"a1 put t 63 r3",
        next_x: 243210352,
        next_forks: 3,
    },
    Made {
        x: 2,
        forks: 6,
        line: b"a3 array b byte 12914",
        next_x: 846338638,
        next_forks: 6,
    },
    Made {
        x: 5,
        forks: 0,
        line: b"zygote set r0 id 31877",
        next_x: 2089129857,
        next_forks: 0,
    },
];

/// A state has these numbers.
fn is_at(rt: &impl Abort, state: MakeState, x: u32, forks: u32) {
    assert_eq!(rt; state, MakeState { x, forks });
}

#[test]
fn made_lines(rt: HostRuntime) {
    for row in &MADE {
        let (x, forks) = (row.x, row.forks);
        assert!(rt; x < 2147483648 && forks <= 6);
        let mut buf = [0; 64];
        let (end, next) = line_of(MakeState { x, forks }, &mut buf);
        has(&rt, &buf[..end], row.line);
        is_at(&rt, next, row.next_x, row.next_forks);
    }
}

/// The sum goes on over a line and a line feed.
fn summed(sum: u32, line: &[u8]) -> u32 {
    let mut sum = sum;
    for b in line {
        sum = sum.wrapping_mul(31).wrapping_add(u32::from(*b));
    }
    sum.wrapping_mul(31).wrapping_add(10)
}

#[test]
fn five_thousand_lines(rt: HostRuntime) {
    let mut state = MakeState { x: 7, forks: 0 };
    let mut sum = 0;
    for _ in 0..5000 {
        let mut buf = [0; 64];
        let (end, next) = line_of(state, &mut buf);
        sum = summed(sum, &buf[..end]);
        state = next;
    }
    is_at(&rt, state, 1431330791, 6);
    sums(&rt, u128::from(sum), 744088925);
}
