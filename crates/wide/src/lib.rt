// AEZ-core, in place: enciphering and deciphering a string of 32 bytes or more where it stands.
// Lines 220 to 240 of Figure 5 of the AEZ paper; deciphering exchanges (0, 1) with (0, 2) and (-1, 1) with (-1, 2).
// m is everywhere 0·J to 7·J, taken out of the key once.
#![tactic(auto)]

ghost use Rattle.std.specs.Prelude.{◌++◌, ◌≡◌, ◌<◌, ◌≤◌, length};
ghost use Rattle.paper.specs.Strings.{◌⊕◌};
ghost use Rattle.paper.specs.Figure6.{E};
ghost use Rattle.paper.specs.Figure5.{core};
ghost use Rattle.tbc.specs.Meaning.{base, OfJ};
ghost use Rattle.key.specs.Meaning.{blocks};
ghost use Rattle.pass.specs.Pairs.{HoldsFor};
ghost use Rattle.wide.specs.Planes.{keys_for};
ghost use Rattle.wide.specs.Ways.{first_of, second_of, end_pairs};
ghost use Rattle.wide.specs.Ends.{sx_of, sy_of, cx_of, cy_of};
ghost use Rattle.wide.specs.Uv.{with_uv, u_masked, v_masked};

use pass::Pass;

// Whether a string is enciphered or deciphered.
#[derive(Clone, Copy)]
pub enum Way {
    Encipher,
    Decipher,
}

// (0, x), (-1, x), (0, y) and (-1, y) of lines 230 and 239.
#[derive(Clone, Copy)]
struct EndPairs {
    x: pairs::Pair,
    xx: pairs::Pair,
    y: pairs::Pair,
    yy: pairs::Pair,
}

impl Way {
    fn end_pairs(self) -> EndPairs
        ensures { result ≡ end_pairs self }
    {
        match self {
            Way::Encipher => EndPairs {
                x: pairs::Pair::X,
                xx: pairs::Pair::XX,
                y: pairs::Pair::Y,
                yy: pairs::Pair::YY,
            },
            Way::Decipher => EndPairs {
                x: pairs::Pair::Y,
                xx: pairs::Pair::YY,
                y: pairs::Pair::X,
                yy: pairs::Pair::XX,
            },
        }
    }
}

// S_x, S_y and S.
#[derive(Clone, Copy)]
struct Sums {
    sx: [u8; 16],
    sy: [u8; 16],
    s: [u8; 16],
}

// What stays the same through lines 220 to 240.
#[derive(Clone, Copy)]
struct Setting<'a> {
    k: tbc::Base,
    m: &'a [u32; 32],
    delta: [u8; 16],
    way: Way,
    ghost of_j: { OfJ k m.now },
}

// Up to this many bytes of M_uv are u alone, which is padded.
const SHORT: usize = 15;

impl Setting<'_> {
    // Lines 227 to 229: a sum, and what u and v add to it. At 16 bytes v is empty, and its padding is added all the same.
    fn with_uv(&self, total: [u8; 16], uv: &[u8]) -> [u8; 16]
        requires { length uv.now < 32 }
        ensures { result ≡ with_uv (E (base self.now.k)) total uv.now }
    {
        if uv.is_empty() {
            total
        } else if uv.len() <= SHORT {
            pass::added(self.k, self.m, pairs::Pair::U, total, block::pad(uv))
        } else {
            let u = slices::load(uv, 0);
            let more = pass::added(self.k, self.m, pairs::Pair::U, total, u);
            let v = block::pad(&uv[16..]);
            pass::added(self.k, self.m, pairs::Pair::V, more, v)
        }
    }

    // Lines 234 to 238: M_u M_v becomes C_u C_v.
    fn mask_uv(&self, sum: [u8; 16], uv: &mut [u8])
        requires { length uv.old < 32 }
        ensures { uv.new ≡ u_masked (E (base self.now.k)) sum uv.old ++ v_masked (E (base self.now.k)) sum uv.old }
    {
        if uv.is_empty() {
            return;
        }
        let e = tbc::e(self.k, self.m, pairs::Pair::UU, sum);
        if uv.len() <= SHORT {
            mask(uv, e);
            return;
        }
        let f = tbc::e(self.k, self.m, pairs::Pair::VV, sum);
        mask(&mut uv[..16], e);
        mask(&mut uv[16..], f);
    }

    // Line 230: S_x, S_y and S, of the last two blocks and the sum X.
    fn middle(&self, total: [u8; 16], last: &[u8]) -> Sums
        requires { length last.now ≡ 32 }
        ensures { (result.sx ≡ sx_of (E (base self.now.k)) self.now.delta (first_of self.now.way) total last.now) × (result.sy ≡ sy_of (E (base self.now.k)) self.now.delta (first_of self.now.way) total last.now) × (result.s ≡ result.sx ⊕ result.sy) }
    {
        let ends = self.way.end_pairs();
        let mx = slices::load(last, 0);
        let my = slices::load(last, 16);
        let a = block::xor(mx, self.delta);
        let b = block::xor(a, total);
        let sx = pass::added(self.k, self.m, ends.x, b, my);
        let sy = pass::added(self.k, self.m, ends.xx, my, sx);
        let s = block::xor(sx, sy);
        Sums { sx, sy, s }
    }

    // Line 239: C_x C_y put in place of the last two blocks, by S_x, S_y and the sum Y.
    fn put_last(&self, total: [u8; 16], sums: Sums, last: &mut [u8])
        requires { length last.old ≡ 32 }
        ensures { last.new ≡ cx_of (E (base self.now.k)) self.now.delta (second_of self.now.way) total sums.sx sums.sy ++ cy_of (E (base self.now.k)) self.now.delta (second_of self.now.way) total sums.sx sums.sy }
    {
        let ends = self.way.end_pairs();
        let cy = pass::added(self.k, self.m, ends.yy, sums.sx, sums.sy);
        let a = block::xor(sums.sy, self.delta);
        let b = block::xor(a, total);
        let cx = pass::added(self.k, self.m, ends.y, b, cy);
        pass::put_two(last, cx, cy);
    }
}

// A part of at most 16 bytes, xored with the front of e.
fn mask(part: &mut [u8], e: [u8; 16])
    requires { length part.old ≤ 16 }
    ensures { part.new ≡ part.old ⊕ e }
{
    for i in 0..part.len() {
        part[i] ^= e[i];
    }
}

// The keys on planes, for a string of n bytes: zeros where it has fewer pairs than make a group, and nobody reads them.
fn keys_for(k: tbc::Base, n: usize) -> groups::Keys
    ensures { (HoldsFor n (base k) result) × (result ≡ keys_for n (base k)) }
{
    if n < 160 {
        [[0u64; 32]; 4]
    } else {
        groups::keys(k)
    }
}

// Lines 220 to 240, in place: s becomes AEZ-core of it.
pub fn core_in_place(k: key::Key, delta: [u8; 16], way: Way, s: &mut [u8])
    requires { (32 ≤ length s.old) × (length s.old ≤ 65536) }
    ensures { s.new ≡ core (E (blocks k)) delta (first_of way) (second_of way) s.old }
{
    let b = k.base();
    let m = k.multiples();
    let n = s.len();
    let keys = keys_for(b, n);
    let at = 32 * (n / 32 - 1);
    let last = at + n % 32;
    let setting = Setting {
        k: b,
        m: &m,
        delta,
        way,
    };
    let first = pass::all_pairs(b, &m, &keys, Pass::First, s);
    let total = setting.with_uv(first, &s[at..last]);
    let sums = setting.middle(total, &s[last..n]);
    setting.mask_uv(sums.s, &mut s[at..last]);
    let second = pass::all_pairs(b, &m, &keys, Pass::Second(sums.s), s);
    let all = setting.with_uv(second, &s[at..last]);
    setting.put_last(all, sums, &mut s[last..n]);
}
