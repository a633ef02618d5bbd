// Three refusals that no replay shows, by direct calls on both sides of their edge. Virtual time comes near 2^60 (11) only
// after hundreds of millions of ticks, the replay lends a tick room for every bio that can wait (13), and it writes no
// record (28). Each line is made of what a call answered and of what it left.
#![tactic(auto)]

use rules::cost::Bio;
use rules::trace::Record;
use say::line;

mod calls;
mod say;
mod states;

// 2^60
const MOST: u64 = 1152921504606846976;

// 11: one nanosecond more is accepted and two are not; a refused tick leaves the time where it was.
fn clock(rt: &impl Print) {
    let mut c = states::fresh(rt);
    states::age(&mut c, MOST - 1);
    let mut lent = [7u32; 1];
    line(rt, "tick past 2^60", &calls::tick(&mut c, 2, &mut lent));
    line(rt, "tick to 2^60", &calls::tick(&mut c, 1, &mut lent));
    line(
        rt,
        "tick past 2^60 again",
        &calls::tick(&mut c, 2, &mut lent),
    );
    line(
        rt,
        "tick of no elapsed time",
        &calls::tick(&mut c, 1, &mut lent),
    );
}

// 11 by what is left over: half a nanosecond of virtual time and another half are one too much. The refused tick leaves the
// first, so 49 hundredths more are accepted, and 1 more is not.
fn remainder(rt: &impl Print) {
    let mut c = states::fresh(rt);
    let mut lent = [7u32; 1];
    line(rt, "vrate 50", &calls::vrate(&mut c, 50));
    line(rt, "half a nanosecond", &calls::tick(&mut c, 1, &mut lent));
    states::age(&mut c, MOST);
    line(
        rt,
        "tick past 2^60 by two halves",
        &calls::tick(&mut c, 2, &mut lent),
    );
    line(rt, "vrate 49", &calls::vrate(&mut c, 49));
    line(
        rt,
        "99 hundredths past 2^60",
        &calls::tick(&mut c, 2, &mut lent),
    );
    line(rt, "vrate 1", &calls::vrate(&mut c, 1));
    line(
        rt,
        "100 hundredths past 2^60",
        &calls::tick(&mut c, 3, &mut lent),
    );
}

// A read of a page, at sector 0.
fn read(node: u8, id: u32) -> Bio {
    Bio {
        node,
        flags: 0,
        id,
        sector: 0,
        bytes: 4096,
    }
}

// 13: three bios wait over two leaves. Two places are too few for them, whether any is due or not; 480,000 ns are what
// leaf 1 needs for both of its own.
fn places(rt: &impl Print) {
    let mut c = states::fresh(rt);
    line(rt, "bio 21 of leaf 2", &calls::submit(&mut c, read(2, 21)));
    line(rt, "bio 11 of leaf 1", &calls::submit(&mut c, read(1, 11)));
    line(rt, "bio 12 of leaf 1", &calls::submit(&mut c, read(1, 12)));
    let mut two = [7u32; 2];
    let mut three = [7u32; 3];
    line(
        rt,
        "2 places for 3 waiters, none due",
        &calls::tick(&mut c, 0, &mut two),
    );
    line(
        rt,
        "3 places for 3 waiters, none due",
        &calls::tick(&mut c, 0, &mut three),
    );
    line(
        rt,
        "2 places for 3 waiters, all due",
        &calls::tick(&mut c, 480000, &mut two),
    );
    line(
        rt,
        "3 places for 3 waiters, all due",
        &calls::tick(&mut c, 480000, &mut three),
    );
    line(
        rt,
        "2 places for no waiter",
        &calls::tick(&mut c, 480000, &mut two),
    );
}

// 28: a tick's record is 9 bytes long.
fn record(rt: &impl Print) {
    let r = Record::Tick(258);
    let mut short = [7u8; 8];
    let mut exact = [7u8; 9];
    line(
        rt,
        "8 bytes for a record of 9",
        &calls::write(r, &mut short),
    );
    line(
        rt,
        "9 bytes for a record of 9",
        &calls::write(r, &mut exact),
    );
}

fn main(rt: HostRuntime) {
    clock(&rt);
    remainder(&rt);
    places(&rt);
    record(&rt);
}
