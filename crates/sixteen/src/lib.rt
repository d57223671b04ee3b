// The AES round of FIPS 197 on sixteen blocks at once, on bit planes (`planes`): a fixed sequence of operations on whole words. No
// branch and no address depends on a byte of a block or a key. A row slot of a group is eight words, a word for each plane (`rows`).
#![tactic(auto)]

ghost use Rattle.std.specs.Prelude.{map, ◌≡◌, ◌<◌};
ghost use Rattle.paper.specs.Strings.{tab};
ghost use Rattle.paper.specs.Fips197.{sbox, SubBytes, ShiftRows, MixColumns};
ghost use Rattle.paper.specs.Section7.{aesenc};
ghost use Rattle.circuit.specs.Planes.{lane};
ghost use Rattle.sixteen.specs.Groups.{row_of, of_rows, xor_planes};
ghost use Rattle.planes.specs.Planes.{plane_block, up_to};

use planes::Planes;
use rows::Row;
use std::array::from_fn;

// The S-box of each byte of a row: the circuit. Its parts are called here, and not the whole, which the compiler would call instead of putting
// it into the loop: a function that is called from one place goes there whatever its length, and the whole has its place with one block.
fn s_boxes(q: Row) -> Row
    ensures { tab 64 (lane result) ≡ tab 64 (λ k. sbox (lane q k)) }
{
    let y = circuit::sums(q);
    let t = circuit::norm(y);
    let v = circuit::inverse16(t);
    let z = circuit::products(y, v);
    circuit::outputs(0xffff_ffff_ffff_ffff, z)
}

// Row 3 - l of a group.
fn row(q: &Planes, l: usize) -> Row
    requires { l < 4 }
    ensures { result ≡ row_of q.now l }
{
    from_fn(|p| q[4 * p + l])
}

// SubBytes. The turns do not wait for each other, and what they read and write stands side by side: the compiler makes vectors of rows.
fn sub_bytes(q: Planes) -> Planes
    ensures { map (plane_block result) (up_to 16) ≡ map (λ s. SubBytes (plane_block q s)) (up_to 16) }
{
    let mut r = [0; 32];
    for l in 0..4 {
        let b = s_boxes(row(&q, l));
        for p in 0..8 {
            r[4 * p + l] = b[p];
        }
    }
    r
}

// The group of four rows.
fn of_rows(a: Row, b: Row, c: Row, d: Row) -> Planes
    ensures { result ≡ of_rows a b c d }
{
    let rows = [d, c, b, a];
    from_fn(|i| rows[i % 4][i / 4])
}

// ShiftRows and MixColumns: row r is turned by r columns.
fn shift_and_mix(q: Planes) -> Planes
    ensures { map (plane_block result) (up_to 16) ≡ map (λ s. MixColumns (ShiftRows (plane_block q s))) (up_to 16) }
{
    let a = row(&q, 3);
    let b = rows::turned(row(&q, 2), 16);
    let c = rows::turned(row(&q, 1), 32);
    let d = rows::turned(row(&q, 0), 48);
    of_rows(
        rows::mixed(a, b, c, d),
        rows::mixed(b, c, d, a),
        rows::mixed(c, d, a, b),
        rows::mixed(d, a, b, c),
    )
}

// AddRoundKey: one line, as `block::xor`, whose contract is of planes.
fn add_key(q: Planes, k: &Planes) -> Planes
    ensures { result ≡ xor_planes q k.now }
{
    from_fn(|i| q[i] ^ k[i])
}

// One round under the keys k, a key for each place: SubBytes, ShiftRows, MixColumns and AddRoundKey.
pub fn round(q: Planes, k: &Planes) -> Planes
    ensures { map (plane_block result) (up_to 16) ≡ map (λ s. aesenc (plane_block q s) (plane_block k.now s)) (up_to 16) }
{
    let s = sub_bytes(q);
    let m = shift_and_mix(s);
    add_key(m, k)
}

// Four rounds.
pub fn rounds4(k1: &Planes, k2: &Planes, k3: &Planes, k4: &Planes, q: Planes) -> Planes
    ensures { map (plane_block result) (up_to 16)
        ≡ map
        (λ s.
        aesenc
        (aesenc
        (aesenc (aesenc (plane_block q s) (plane_block k1.now s)) (plane_block k2.now s))
        (plane_block k3.now s))
        (plane_block k4.now s))
        (up_to 16) }
{
    let a = round(q, k1);
    let b = round(a, k2);
    let c = round(b, k3);
    round(c, k4)
}
