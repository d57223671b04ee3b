// What other programs link, from C and from Rust: the calls of `aez`, with the names, the order and the widths that stay, each with the
// clauses that it has there. Each slice is a pointer and then a length. No function asks anything of its caller.
#![tactic(auto)]

ghost use Rattle.std.specs.Prelude.{◌≡◌};
ghost use Rattle.paper.specs.Document01.{reading, sealing, opening, told, building_log_header};
ghost use Rattle.paper.specs.DayFile.{counting, opening_record, listing, writing};
ghost use Rattle.paper.specs.Pause.{pausing};
ghost use Rattle.paper.specs.Ledger.{reporting, reporting_figures};
ghost use Rattle.paper.specs.DayEdits.{clearing, appending};

// Sealing.
#[unsafe(no_mangle)]
pub extern "C" fn aez_seal(
    key: &[u8],
    header: &[u8],
    stretch: u64,
    text: &[u8],
    out: &mut [u8],
) -> u32
    ensures { (result ≡ (sealing key.now header.now stretch text.now out.old).number) × (out.new ≡ (sealing key.now header.now stretch text.now out.old).output) }
{
    aez::aez_seal(key, header, stretch, text, out)
}

// Opening, the numbered form.
#[unsafe(no_mangle)]
pub extern "C" fn aez_open(
    key: &[u8],
    header: &[u8],
    stretch: u64,
    sealed: &[u8],
    out: &mut [u8],
) -> u32
    ensures { (result ≡ (opening key.now header.now stretch sealed.now out.old).number) × (out.new ≡ (opening key.now header.now stretch sealed.now out.old).output) }
{
    aez::aez_open(key, header, stretch, sealed, out)
}

// Sealing that also tells which entry of the header is bad (request E5): place is set at every return, and is 0 beside every answer but 3.
#[unsafe(no_mangle)]
pub extern "C" fn aez_seal_at(
    key: &[u8],
    header: &[u8],
    stretch: u64,
    text: &[u8],
    out: &mut [u8],
    place: &mut u64,
) -> u32
    ensures { (result ≡ (sealing key.now header.now stretch text.now out.old).number) × (out.new ≡ (sealing key.now header.now stretch text.now out.old).output) × (place.new ≡ (sealing key.now header.now stretch text.now out.old).place) }
{
    aez::aez_seal_at(key, header, stretch, text, out, place)
}

// Opening, the numbered form, that also tells which entry of the header is bad.
#[unsafe(no_mangle)]
pub extern "C" fn aez_open_at(
    key: &[u8],
    header: &[u8],
    stretch: u64,
    sealed: &[u8],
    out: &mut [u8],
    place: &mut u64,
) -> u32
    ensures { (result ≡ (opening key.now header.now stretch sealed.now out.old).number) × (out.new ≡ (opening key.now header.now stretch sealed.now out.old).output) × (place.new ≡ (opening key.now header.now stretch sealed.now out.old).place) }
{
    aez::aez_open_at(key, header, stretch, sealed, out, place)
}

// Reading a header by itself: 0 and how many strings it has, or 3 and which entry is bad.
#[unsafe(no_mangle)]
pub extern "C" fn aez_header_read(header: &[u8], strings: &mut u64, place: &mut u64) -> u32
    ensures { (result ≡ (told (reading header.now)).number) × (strings.new ≡ (told (reading header.now)).strings) × (place.new ≡ (told (reading header.now)).place) }
{
    aez::aez_header_read(header, strings, place)
}

// The log header.
#[unsafe(no_mangle)]
pub extern "C" fn aez_log_header(
    nonce: &[u8],
    host: &[u8],
    collector: &[u8],
    locale: &[u8],
    out: &mut [u8],
) -> u32
    ensures { (result ≡ (building_log_header nonce.now host.now collector.now locale.now out.old).number) × (out.new ≡ (building_log_header nonce.now host.now collector.now locale.now out.old).output) }
{
    aez::aez_log_header(nonce, host, collector, locale, out)
}

// A day file of headers and sealed strings, each joined, with a list of their lengths, and of the records' header numbers and stretches.
#[unsafe(no_mangle)]
pub extern "C" fn aez_day_write(
    lengths: &[u64],
    headers: &[u8],
    numbers: &[u64],
    stretches: &[u64],
    sizes: &[u64],
    sealed: &[u8],
    out: &mut [u8],
    size: &mut u64,
) -> u32
    ensures { (result ≡ (writing lengths.now headers.now numbers.now stretches.now sizes.now sealed.now out.old).number) × (size.new ≡ (writing lengths.now headers.now numbers.now stretches.now sizes.now sealed.now out.old).size) × (out.new ≡ (writing lengths.now headers.now numbers.now stretches.now sizes.now sealed.now out.old).output) }
{
    aez::aez_day_write(
        lengths, headers, numbers, stretches, sizes, sealed, out, size,
    )
}

// How many records a day file has.
#[unsafe(no_mangle)]
pub extern "C" fn aez_day_records(file: &[u8], records: &mut u64) -> u32
    ensures { (result ≡ (counting file.now).number) × (records.new ≡ (counting file.now).records) }
{
    aez::aez_day_records(file, records)
}

// Opening a record of a day file by its number.
#[unsafe(no_mangle)]
pub extern "C" fn aez_day_open(
    key: &[u8],
    file: &[u8],
    k: u64,
    out: &mut [u8],
    size: &mut u64,
) -> u32
    ensures { (result ≡ (opening_record key.now file.now k out.old).number) × (size.new ≡ (opening_record key.now file.now k out.old).size) × (out.new ≡ (opening_record key.now file.now k out.old).output) }
{
    aez::aez_day_open(key, file, k, out, size)
}

// Where the headers and the records of a day file stand.
#[unsafe(no_mangle)]
pub extern "C" fn aez_day_list(
    file: &[u8],
    places: &mut [u64],
    headers: &mut u64,
    records: &mut u64,
) -> u32
    ensures { (result ≡ (listing file.now places.old).number) × (headers.new ≡ (listing file.now places.old).headers) × (records.new ≡ (listing file.now places.old).records) × (places.new ≡ (listing file.now places.old).places) }
{
    aez::aez_day_list(file, places, headers, records)
}

// A pause: a text under a header, in exact microseconds.
#[unsafe(no_mangle)]
pub extern "C" fn aez_pause(header: &[u8], text: &[u8], microseconds: &mut u64) -> u32
    ensures { (result ≡ (pausing header.now text.now).number) × (microseconds.new ≡ (pausing header.now text.now).microseconds) }
{
    aez::aez_pause(header, text, microseconds)
}

// The report of a day file, as a line.
#[unsafe(no_mangle)]
pub extern "C" fn aez_report(key: &[u8], file: &[u8], out: &mut [u8], size: &mut u64) -> u32
    ensures { (result ≡ (reporting key.now file.now out.old).number) × (size.new ≡ (reporting key.now file.now out.old).size) × (out.new ≡ (reporting key.now file.now out.old).output) }
{
    aez::aez_report(key, file, out, size)
}

// The report of a day file, as six numbers: read, refused, sum, longest, and the mean's fraction.
#[unsafe(no_mangle)]
pub extern "C" fn aez_report_figures(key: &[u8], file: &[u8], figures: &mut [u64]) -> u32
    ensures { (result ≡ (reporting_figures key.now file.now figures.old).number) × (figures.new ≡ (reporting_figures key.now file.now figures.old).output) }
{
    aez::aez_report_figures(key, file, figures)
}

// Clearing records out of a day file that stands first in a buffer.
#[unsafe(no_mangle)]
pub extern "C" fn aez_day_clear(
    buffer: &mut [u8],
    size: u64,
    dropped: &[u64],
    new_size: &mut u64,
) -> u32
    ensures { (result ≡ (clearing buffer.old size dropped.now).number) × (new_size.new ≡ (clearing buffer.old size dropped.now).size) × (buffer.new ≡ (clearing buffer.old size dropped.now).output) }
{
    aez::aez_day_clear(buffer, size, dropped, new_size)
}

// Appending a record to a day file that stands first in a buffer.
#[unsafe(no_mangle)]
pub extern "C" fn aez_day_append(
    buffer: &mut [u8],
    size: u64,
    number: u64,
    header: &[u8],
    stretch: u64,
    sealed: &[u8],
    new_size: &mut u64,
) -> u32
    ensures { (result ≡ (appending buffer.old size number header.now stretch sealed.now).number) × (new_size.new ≡ (appending buffer.old size number header.now stretch sealed.now).size) × (buffer.new ≡ (appending buffer.old size number header.now stretch sealed.now).output) }
{
    aez::aez_day_append(buffer, size, number, header, stretch, sealed, new_size)
}
