// A seed: a number that is made of all keys of a list. Who knows where keys have their places can choose keys that crowd at few of them; but
// which seed a list makes is known only when all its keys are chosen. No answer depends on it.
ghost use Rattle.std.specs.Prelude.{length};
ghost use Rattle.pairs.specs.Indices.{at, Rising};

use crate::keys::Records;

// The four numbers into which keys are mixed, by the rounds of SipHash.
#[derive(Clone, Copy, Debug, PartialEq, Eq)]
pub struct Mix {
    a: u64,
    b: u64,
    c: u64,
    d: u64,
}

// The numbers that SipHash starts with.
const START_A: u64 = 0x736f_6d65_7073_6575;

const START_B: u64 = 0x646f_7261_6e64_6f6d;

const START_C: u64 = 0x6c79_6765_6e65_7261;

const START_D: u64 = 0x7465_6462_7974_6573;

// One round.
fn stir(m: Mix) -> Mix
    ensures { Unit {0} }
{
    let mut a = m.a.wrapping_add(m.b);
    let mut b = m.b.rotate_left(13) ^ a;
    let mut c = m.c.wrapping_add(m.d);
    let mut d = m.d.rotate_left(16) ^ c;
    a = a.rotate_left(32).wrapping_add(d);
    d = d.rotate_left(21) ^ a;
    c = c.wrapping_add(b);
    b = b.rotate_left(17) ^ c;
    Mix {
        a,
        b,
        c: c.rotate_left(32),
        d,
    }
}

// One key is mixed in.
fn with_key(m: Mix, x: u64) -> Mix
    ensures { Unit {0} }
{
    let s = stir(Mix {
        a: m.a,
        b: m.b,
        c: m.c,
        d: m.d ^ x,
    });
    Mix {
        a: s.a ^ x,
        b: s.b,
        c: s.c,
        d: s.d,
    }
}

// One number of all four, by three rounds more.
fn drawn(m: Mix) -> u64
    ensures { Unit {0} }
{
    let s = stir(stir(stir(Mix {
        a: m.a,
        b: m.b,
        c: m.c ^ 255,
        d: m.d,
    })));
    s.a ^ s.b ^ s.c ^ s.d
}

// The seed of the listed records, in a turn. Not inlined: the loops of sifting need the registers.
#[inline(never)]
pub(crate) fn seed_of(records: &Records<'_>, list: &[u16], turn: u64) -> u64
    requires { Rising records.now.n (length list.now) (at list.now) }
    ensures { Unit {0} }
{
    let mut mix = Mix {
        a: START_A ^ turn,
        b: START_B,
        c: START_C ^ turn,
        d: START_D,
    };
    for i in list {
        mix = with_key(mix, records.key_at(usize::from(*i)));
    }
    drawn(mix)
}
