// The cleared file put into the buffer that holds a day file, request E13. Parts are moved to the left only. A table of bits tells which headers
// kept records name, and the number that a header gets is the count of bits before its own. So that no count takes more than 63 steps, those
// before each group of 64 bits are noted once.
#![tactic(auto)]

ghost use Rattle.std.specs.Prelude.{true, ◌++◌, ◌≡◌, ◌+◌, ◌-◌, ◌*◌, ◌/◌, ◌%◌, ◌^◌, ◌≤◌, ◌<◌, length, take, drop, replicate, set, eqb, if◌then◌else◌};
ghost use Rattle.paper.specs.DayFile.{read_day};
ghost use Rattle.paper.specs.DayEdits.{count_below, keeps, rising_from};
ghost use Rattle.laws.specs.Placing.{placed};
ghost use Rattle.day_pack.specs.Bits.{bit_of, with_bit, bits_below, Tallied, Counted};
ghost use Rattle.day_pack.specs.Kept.{next_is, Walkable, MarksOf, CountedAll, kept_part, head_end, heads_kept, record_part, records_kept, Packed};
ghost use Rattle.day_pack.specs.Cleared.{Clearable, cleared_file, cleared_buffer};

// Bit n of a table: 0 or 1. There is room for 13,104 bits: a header takes five bytes or more of a file's 65,536.
fn bit(table: &[u8; 1638], n: usize) -> usize
    requires { n < 13104 }
    ensures { (result ≡ bit_of table.now n) × (result ≤ 1) }
{
    usize::from((table[n / 8] >> (n % 8)) % 2)
}

// A table of bits that are counted: how many are set in all, and how many before each group of 64.
#[derive(Drop)]
struct Counts<'a> {
    table: &'a [u8; 1638],
    before: [usize; 205],
    all: usize,
}

impl<'a> Counts<'a> {
    // The first n bits counted, where none was. In place: what a call gives back is moved once more, with all that it holds.
    fn count(&mut self, n: usize)
        requires { (n ≤ 13104) × (self.old.before ≡ replicate 205 0) }
        ensures table { self.new.table.now ≡ self.old.table.now }
        ensures all { self.new.all ≡ bits_below self.old.table.now n }
        ensures before { Tallied self.new.before self.old.table.now n }
    {
        let mut all = 0;
        for i in 0..n {
            if i % 64 == 0 {
                self.before[i / 64] = all;
            }
            all += bit(self.table, i);
        }
        self.all = all;
    }

    // How many bits before bit n are set, its group's count being noted.
    fn below(&self, n: usize) -> usize
        requires { (n < 13104) × Counted self.now.before self.now.table.now n }
        ensures { result ≡ bits_below self.now.table.now n }
    {
        let mut r = self.before[n / 64];
        for i in n / 64 * 64..n {
            r += bit(self.table, i);
        }
        r
    }
}

// Bit n set, unless it is to be left.
fn mark(table: &mut [u8; 1638], n: usize, leave: bool)
    requires { n < 13104 }
    ensures { table.new ≡ (if leave then table.old else with_bit table.old n) }
{
    if !leave {
        table[n / 8] |= 1 << (n % 8);
    }
}

// Whether entry j of a list is k.
fn next_is(dropped: &[u64], j: usize, k: usize) -> bool
    ensures { result ≡ next_is dropped.now j k }
{
    dropped.get(j) == Some(&(k as u64))
}

// The headers that kept records name marked in a table of zeros, where a file's front ends with its records. How many records are kept is
// returned.
fn mark_kept(
    file: &[u8],
    first: usize,
    records: usize,
    dropped: &[u64],
    table: &mut [u8; 1638],
) -> usize
    requires { Walkable file.now first records × (rising_from 0 records dropped.now ≡ true) × (table.old ≡ replicate 1638 0) }
    ensures { (result ≡ count_below (keeps dropped.now) records) × MarksOf table.new file.now dropped.now first records }
{
    let mut at = first;
    let mut j = 0;
    for k in 0..records {
        let e = day_steps::entry_at(file, at);
        let named = next_is(dropped, j, k);
        mark(table, e.header, named);
        at = e.end;
        j += usize::from(named);
    }
    records - j
}

// n bytes put at an earlier place, where their bit is set. The place after what is written is returned.
fn move_kept(out: &mut [u8], to: usize, from: usize, n: usize, set: usize) -> usize
    requires { (to ≤ from) × (from + n ≤ length out.old) }
    ensures { (result ≡ to + length (kept_part set (take n (drop from out.old)))) × (out.new ≡ placed to (kept_part set (take n (drop from out.old))) out.old) }
{
    if set == 1 {
        day_place::move_bytes(out, to, from, n);
        to + n
    } else {
        to
    }
}

// The headers whose bits are set put one after the other behind the four bytes of their count. The place after them is returned.
fn pack_headers(out: &mut [u8], headers: usize, table: &[u8; 1638]) -> usize
    requires { (head_end out.old headers ≤ length out.old) × (headers ≤ 13104) }
    ensures { (result ≡ 4 + length (heads_kept out.old table.now headers)) × Packed out.old (take 4 out.old ++ heads_kept out.old table.now headers) (head_end out.old headers) out.new }
{
    let mut from = 4;
    let mut to = 4;
    for i in 0..headers {
        let n = 2 + numbers::read::<2>(out, from);
        to = move_kept(out, to, from, n, bit(table, i));
        from += n;
    }
    to
}

// A record put at an earlier place with its header's number mended, unless it is dropped. The place after what is written is returned.
fn put_kept(
    out: &mut [u8],
    to: usize,
    from: usize,
    end: usize,
    number: usize,
    counts: &Counts<'_>,
    dropped: bool,
) -> usize
    requires { (to ≤ from) × (from + 7 ≤ end) × (end ≤ length out.old) × (number < 13104) × Counted counts.now.before counts.now.table.now number }
    ensures { (result ≡ to + length (record_part dropped (bits_below counts.now.table.now number) (take (end - (from + 2)) (drop (from + 2) out.old)))) × (out.new ≡ placed to (record_part dropped (bits_below counts.now.table.now number) (take (end - (from + 2)) (drop (from + 2) out.old))) out.old) }
{
    if dropped {
        to
    } else {
        let n = counts.below(number);
        numbers::put::<2>(out, to, n);
        day_place::move_bytes(out, to + 2, from + 2, end - (from + 2));
        to + (end - from)
    }
}

// The records that stand from one place to another put one after the other at an earlier place, without those that are dropped. The place after
// them is returned.
fn pack_records(
    out: &mut [u8],
    first: usize,
    records: usize,
    last: usize,
    start: usize,
    dropped: &[u64],
    counts: &Counts<'_>,
) -> usize
    requires { Walkable (take last out.old) first records × (rising_from 0 records dropped.now ≡ true) × (start ≤ first) × (last ≤ length out.old) × CountedAll counts.now.before counts.now.table.now (take last out.old) first records }
    ensures { (result ≡ start + length (records_kept (take last out.old) counts.now.table.now dropped.now first records)) × Packed out.old (take start out.old ++ records_kept (take last out.old) counts.now.table.now dropped.now first records) last out.new }
{
    let mut from = first;
    let mut to = start;
    let mut j = 0;
    for k in 0..records {
        let e = day_steps::entry_at(&out[..last], from);
        let named = next_is(dropped, j, k);
        to = put_kept(out, to, from, e.end, e.header, counts, named);
        from = e.end;
        j += usize::from(named);
    }
    to
}

// The cleared file put first in the buffer that holds the file, and zeros after it, up to the file's old length, where the headers that stay are
// marked and the records that stay counted. Its length is returned.
fn put_marked(
    out: &mut [u8],
    size: usize,
    headers: usize,
    records: usize,
    first: usize,
    dropped: &[u64],
    table: &[u8; 1638],
    kept: usize,
) -> usize
    requires { Clearable out.old size headers records first dropped.now × MarksOf table.now (take (size - 4 - 4 * records) out.old) dropped.now first records × (kept ≡ count_below (keeps dropped.now) records) }
    ensures { (result ≡ length (cleared_file (read_day (take size out.old)) dropped.now)) × (out.new ≡ cleared_buffer (cleared_file (read_day (take size out.old)) dropped.now) size out.old) }
{
    let last = size - 4 - 4 * records;
    let mut counts = Counts {
        table,
        before: [0; 205],
        all: 0,
    };
    counts.count(headers);
    numbers::put::<4>(out, 0, counts.all);
    let to = pack_headers(out, headers, table);
    numbers::put::<4>(out, to, kept);
    let start = to + 4;
    let end = pack_records(out, first, records, last, start, dropped, &counts);
    day_place::put_index(out, start, kept, end);
    let n = end + 4 + 4 * kept;
    slices::clear(&mut out[n..size]);
    n
}

// The same, where nothing is marked yet.
pub fn put_cleared(
    out: &mut [u8],
    size: usize,
    headers: usize,
    records: usize,
    first: usize,
    dropped: &[u64],
) -> usize
    requires { Clearable out.old size headers records first dropped.now }
    ensures { (result ≡ length (cleared_file (read_day (take size out.old)) dropped.now)) × (out.new ≡ cleared_buffer (cleared_file (read_day (take size out.old)) dropped.now) size out.old) }
{
    let last = size - 4 - 4 * records;
    let mut table = [0u8; 1638];
    let kept = mark_kept(&out[..last], first, records, dropped, &mut table);
    put_marked(out, size, headers, records, first, dropped, &table, kept)
}
