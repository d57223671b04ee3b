// The calls of the crates below, under the names, in the order and with the widths that stay for other programs. `aez_c` exports each of
// them to C with the same clauses. No function asks anything of its caller.
#![tactic(auto)]

ghost use Rattle.std.specs.Prelude.{◌≡◌};
ghost use Rattle.paper.specs.Document01.{reading, sealing, opening, told, building_log_header};
ghost use Rattle.paper.specs.DayFile.{counting, opening_record, listing, writing};
ghost use Rattle.paper.specs.Pause.{pausing};
ghost use Rattle.paper.specs.Ledger.{reporting, reporting_figures};
ghost use Rattle.answer.specs.Outcomes.{number_in, size_in, place_in};
ghost use Rattle.paper.specs.DayEdits.{clearing, appending};

use answer::{Refusal, StretchBytes};
use header::BadEntry;

// The number of an answer: the C interface has no Result, and needs 0 or the refusal's number.
fn number_of(answer: Result<usize, Refusal>) -> u32
    ensures { result ≡ number_in answer }
{
    match answer {
        Ok(_) => 0,
        Err(refusal) => refusal.number(),
    }
}

// The length of an answer, and 0 beside a refusal.
fn length_of(answer: Result<usize, Refusal>) -> u64
    ensures { result ≡ size_in answer }
{
    answer.unwrap_or(0) as u64
}

// The bad entry beside the number 3, and else 0.
fn place_of(answer: Result<usize, Refusal>) -> u64
    ensures { result ≡ place_in answer }
{
    match answer {
        Ok(_) => 0,
        Err(refusal) => refusal.place() as u64,
    }
}

// Sealing.
pub fn aez_seal(key: &[u8], header: &[u8], stretch: u64, text: &[u8], out: &mut [u8]) -> u32
    ensures { (result ≡ (sealing key.now header.now stretch text.now out.old).number) × (out.new ≡ (sealing key.now header.now stretch text.now out.old).output) }
{
    let answer = record::seal(key, header, StretchBytes(stretch), text, out);
    number_of(answer)
}

// Opening, the numbered form.
pub fn aez_open(key: &[u8], header: &[u8], stretch: u64, sealed: &[u8], out: &mut [u8]) -> u32
    ensures { (result ≡ (opening key.now header.now stretch sealed.now out.old).number) × (out.new ≡ (opening key.now header.now stretch sealed.now out.old).output) }
{
    let answer = record::open(key, header, StretchBytes(stretch), sealed, out);
    number_of(answer)
}

// Sealing that also tells which entry of the header is bad (request E5): place is set at every return, and is 0 beside every answer but 3.
pub fn aez_seal_at(
    key: &[u8],
    header: &[u8],
    stretch: u64,
    text: &[u8],
    out: &mut [u8],
    place: &mut u64,
) -> u32
    ensures { (result ≡ (sealing key.now header.now stretch text.now out.old).number) × (out.new ≡ (sealing key.now header.now stretch text.now out.old).output) × (place.new ≡ (sealing key.now header.now stretch text.now out.old).place) }
{
    let sealed = record::seal(key, header, StretchBytes(stretch), text, out);
    *place = place_of(sealed);
    number_of(sealed)
}

// Opening, the numbered form, that also tells which entry of the header is bad.
pub fn aez_open_at(
    key: &[u8],
    header: &[u8],
    stretch: u64,
    sealed: &[u8],
    out: &mut [u8],
    place: &mut u64,
) -> u32
    ensures { (result ≡ (opening key.now header.now stretch sealed.now out.old).number) × (out.new ≡ (opening key.now header.now stretch sealed.now out.old).output) × (place.new ≡ (opening key.now header.now stretch sealed.now out.old).place) }
{
    let opened = record::open(key, header, StretchBytes(stretch), sealed, out);
    *place = place_of(opened);
    number_of(opened)
}

// Reading a header by itself: 0 and how many strings it has, or 3 and which entry is bad.
pub fn aez_header_read(header: &[u8], strings: &mut u64, place: &mut u64) -> u32
    ensures { (result ≡ (told (reading header.now)).number) × (strings.new ≡ (told (reading header.now)).strings) × (place.new ≡ (told (reading header.now)).place) }
{
    match header::read(header) {
        Ok(n) => {
            *strings = n as u64;
            *place = 0;
            0
        }
        Err(BadEntry(k)) => {
            *strings = 0;
            *place = k as u64;
            3
        }
    }
}

// The log header.
pub fn aez_log_header(
    nonce: &[u8],
    host: &[u8],
    collector: &[u8],
    locale: &[u8],
    out: &mut [u8],
) -> u32
    ensures { (result ≡ (building_log_header nonce.now host.now collector.now locale.now out.old).number) × (out.new ≡ (building_log_header nonce.now host.now collector.now locale.now out.old).output) }
{
    let answer = builder::log_header(nonce, host, collector, locale, out);
    number_of(answer)
}

// A day file of headers and sealed strings, each joined, with a list of their lengths, and of the records' header numbers and stretches.
pub fn aez_day_write(
    lengths: &[u64],
    headers: &[u8],
    numbers: &[u64],
    stretches: &[u64],
    sizes: &[u64],
    sealed: &[u8],
    out: &mut [u8],
    size: &mut u64,
) -> u32
    ensures { (result ≡ (writing lengths.now headers.now numbers.now stretches.now sizes.now sealed.now out.old).number) × (size.new ≡ (writing lengths.now headers.now numbers.now stretches.now sizes.now sealed.now out.old).size) × (out.new ≡ (writing lengths.now headers.now numbers.now stretches.now sizes.now sealed.now out.old).output) }
{
    let answer = day_write::write(lengths, headers, numbers, stretches, sizes, sealed, out);
    *size = length_of(answer);
    number_of(answer)
}

// How many records a day file has.
pub fn aez_day_records(file: &[u8], records: &mut u64) -> u32
    ensures { (result ≡ (counting file.now).number) × (records.new ≡ (counting file.now).records) }
{
    let Some(day) = day::check(file) else {
        *records = 0;
        return 9;
    };
    *records = day.records as u64;
    0
}

// Opening a record of a day file by its number.
pub fn aez_day_open(key: &[u8], file: &[u8], k: u64, out: &mut [u8], size: &mut u64) -> u32
    ensures { (result ≡ (opening_record key.now file.now k out.old).number) × (size.new ≡ (opening_record key.now file.now k out.old).size) × (out.new ≡ (opening_record key.now file.now k out.old).output) }
{
    let answer = day_open::open(key, file, k as usize, out);
    *size = length_of(answer);
    number_of(answer)
}

// Where the headers and the records of a day file stand.
pub fn aez_day_list(file: &[u8], places: &mut [u64], headers: &mut u64, records: &mut u64) -> u32
    ensures { (result ≡ (listing file.now places.old).number) × (headers.new ≡ (listing file.now places.old).headers) × (records.new ≡ (listing file.now places.old).records) × (places.new ≡ (listing file.now places.old).places) }
{
    match day_list::list(file, places) {
        Ok(listed) => {
            *headers = listed.headers as u64;
            *records = listed.records as u64;
            0
        }
        Err(refusal) => {
            *headers = 0;
            *records = 0;
            refusal.number()
        }
    }
}

// A pause: a text under a header, in exact microseconds.
pub fn aez_pause(header: &[u8], text: &[u8], microseconds: &mut u64) -> u32
    ensures { (result ≡ (pausing header.now text.now).number) × (microseconds.new ≡ (pausing header.now text.now).microseconds) }
{
    match pause::read_field(header, text) {
        Ok(n) => {
            *microseconds = n;
            0
        }
        Err(refusal) => {
            *microseconds = 0;
            refusal.number()
        }
    }
}

// The report of a day file, as a line.
pub fn aez_report(key: &[u8], file: &[u8], out: &mut [u8], size: &mut u64) -> u32
    ensures { (result ≡ (reporting key.now file.now out.old).number) × (size.new ≡ (reporting key.now file.now out.old).size) × (out.new ≡ (reporting key.now file.now out.old).output) }
{
    let answer = ledger::report(key, file, out);
    *size = length_of(answer);
    number_of(answer)
}

// The report of a day file, as six numbers: read, refused, sum, longest, and the mean's fraction.
pub fn aez_report_figures(key: &[u8], file: &[u8], figures: &mut [u64]) -> u32
    ensures { (result ≡ (reporting_figures key.now file.now figures.old).number) × (figures.new ≡ (reporting_figures key.now file.now figures.old).output) }
{
    let answer = ledger::figures(key, file, figures);
    number_of(answer)
}

// Clearing records out of a day file that stands first in a buffer.
pub fn aez_day_clear(buffer: &mut [u8], size: u64, dropped: &[u64], new_size: &mut u64) -> u32
    ensures { (result ≡ (clearing buffer.old size dropped.now).number) × (new_size.new ≡ (clearing buffer.old size dropped.now).size) × (buffer.new ≡ (clearing buffer.old size dropped.now).output) }
{
    let answer = day_clear::clear(buffer, size, dropped);
    *new_size = length_of(answer);
    number_of(answer)
}

// Appending a record to a day file that stands first in a buffer.
pub fn aez_day_append(
    buffer: &mut [u8],
    size: u64,
    number: u64,
    header: &[u8],
    stretch: u64,
    sealed: &[u8],
    new_size: &mut u64,
) -> u32
    ensures { (result ≡ (appending buffer.old size number header.now stretch sealed.now).number) × (new_size.new ≡ (appending buffer.old size number header.now stretch sealed.now).size) × (buffer.new ≡ (appending buffer.old size number header.now stretch sealed.now).output) }
{
    let answer = day_append::append(buffer, size, number, header, stretch, sealed);
    *new_size = length_of(answer);
    number_of(answer)
}
