// What comes next in a generated run: it depends on nothing but its number and the draw before.
ghost use Rattle.std.specs.Prelude.{◌<◌};

use rules::cost::Bio;

pub(crate) const FIRST: u64 = 88172645463325252;

// Marsaglia's xorshift with the shifts 13, 7 and 17.
pub(crate) fn next(draw: u64) -> u64 {
    let a = draw ^ (draw << 13);
    let b = a ^ (a >> 7);
    b ^ (b << 17)
}

#[derive(Clone, Copy)]
pub(crate) enum Move {
    Send(Bio),
    Tick(u64),
    Plan,
}

// What a draw finds in a table: as often as it stands there.
fn found<T: Copy, const N: usize>(table: [T; N], draw: u64) -> T
    requires { 0 < N }
{
    table[(draw % N as u64) as usize]
}

// Leaves most often, one of them seldom, so that it falls asleep; the root, the group, and nodes that are not there.
fn node(draw: u64) -> u8 {
    found([2, 2, 2, 2, 4, 4, 4, 5, 5, 5, 3, 0, 1, 6, 63, 200], draw)
}

// Reads and writes, forced or not, and flags that are none.
fn flags(draw: u64) -> u8 {
    found([0, 0, 0, 0, 0, 0, 0, 2, 2, 2, 1, 3, 3, 3, 3, 4], draw)
}

fn sector(draw: u64) -> u64 {
    let sectors = [
        0,
        8,
        16,
        24,
        1000000,
        1000008,
        281474976710656,
        281474976710657,
    ];
    found(sectors, draw)
}

// 0 bytes are a flush, of a write; 513 are no number of blocks.
fn bytes(draw: u64) -> u32 {
    found([4096, 4096, 4096, 512, 8192, 0, 12288, 513], draw)
}

// Of the leaves only 4 and 5 write: they owe for long, and the others can go on.
fn bio(draw: u64) -> Bio {
    let node = node(draw);
    let mut flags = flags(draw / 16);
    if node < 4 {
        flags &= 6;
    }
    Bio {
        node,
        flags,
        id: (draw % 65536) as u32,
        sector: sector(draw / 256),
        bytes: bytes(draw / 2048),
    }
}

fn elapsed(draw: u64) -> u64 {
    found(
        [0, 100, 20000, 30000, 100000, 200000, 1000000, 200000000],
        draw,
    )
}

fn any(draw: u64) -> Move {
    let rest = draw / 1048576;
    if (draw / 16) % 8 == 0 {
        Move::Plan
    } else if (draw / 131072) % 8 < 2 {
        Move::Tick(elapsed(rest))
    } else {
        Move::Send(bio(rest))
    }
}

fn of_leaf(node: u8, flags: u8, sector: u64, bytes: u32) -> Move {
    Move::Send(Bio {
        node,
        flags,
        id: 7,
        sector,
        bytes,
    })
}

// Forced writes of two seconds each, with no tick and no plan between: 549 of them are a debt at its limit.
const DEAR_FROM: usize = 30000;

const DEAR_LAST: usize = 30699;

// First a leaf that a flush woke has saved half of what its first bio costs, and more than the same read would cost had there
// been one before.
pub(crate) fn drawn(draw: u64, i: usize) -> Move {
    match i {
        0 => of_leaf(3, 1, 0, 0),
        1 => Move::Tick(1000000000),
        2 => Move::Tick(50000),
        3 => of_leaf(3, 0, 8, 4096),
        DEAR_FROM..=DEAR_LAST => of_leaf(5, 3, 8, 8192),
        _ => any(draw),
    }
}
