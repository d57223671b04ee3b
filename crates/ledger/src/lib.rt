// The report of a day file, request E12: its pauses counted and summed, their longest and their mean, and the line.
// One check of the file, one walk over its headers for the marks, and one over its records: each is opened into a small buffer, and its header
// found from a mark. Nothing else is kept.
#![tactic(auto)]

ghost use Rattle.std.specs.Prelude.{◌≡◌, ◌<◌, length, replicate};
ghost use Rattle.paper.specs.Document01.{reading};
ghost use Rattle.paper.specs.DayFile.{read_day};
ghost use Rattle.paper.specs.Ledger.{opened_pause, report_of, reporting, reporting_figures};
ghost use Rattle.answer.specs.Outcomes.{outcome};
ghost use Rattle.day_find.specs.Finds.{headers_in, records_in};
ghost use Rattle.day_marks.specs.Marks.{marks_of};
ghost use Rattle.pause_mark.specs.Marks.{mark_as};
ghost use Rattle.mean.specs.Reports.{meaning};
ghost use Rattle.ledger.specs.Pauses.{taken_as, pauses_in, pause_at, totals_of};
ghost use Rattle.ledger.specs.Reports.{reported_as};

use answer::{Refusal, StretchBytes};
use mean::{Report, Totals};

// The pause of a sealed string under a header with this mark, opened into a buffer of just its length.
fn open_in(
    key: &[u8],
    header: &[u8],
    stretch: u64,
    sealed: &[u8],
    mark: u8,
    out: &mut [u8],
) -> Option<u64>
    requires { (Ok mark ≡ mark_as (reading header.now)) × (out.old ≡ replicate (length sealed.now) 0) }
    ensures { result ≡ taken_as (opened_pause key.now header.now stretch sealed.now) }
{
    let Ok(length) = record::open(key, header, StretchBytes(stretch), sealed, &mut *out) else {
        return None;
    };
    pause_text::read_text(mark, &out[..length])
}

// The longest sealed string that is opened.
const LONGEST: usize = 80;

// The pause of a sealed string under a header. A pause has at most 16 bytes and a stretch at most 64, so a longer string is refused unopened:
// whether it opens makes no difference. Nor does it where the locale is refused.
fn pause_of(key: &[u8], header: &[u8], stretch: u64, sealed: &[u8]) -> Option<u64>
    ensures { result ≡ taken_as (opened_pause key.now header.now stretch sealed.now) }
{
    let n = sealed.len();
    if LONGEST < n {
        return None;
    }
    let mark = pause_mark::header_mark(header).ok()?;
    let mut buffer = [0u8; LONGEST];
    open_in(key, header, stretch, sealed, mark, &mut buffer[..n])
}

// The pause of record k.
fn pause_at(key: &[u8], file: &[u8], marks: &[u32; 205], records: usize, k: usize) -> Option<u64>
    requires { (marks.now ≡ marks_of (read_day file.now)) × (records ≡ records_in (read_day file.now)) × (k < records) }
    ensures { result ≡ taken_as (pause_at key.now (read_day file.now) k) }
{
    let f = day_marks::find(file, marks, records, k);
    pause_of(
        key,
        &file[f.header_start..f.header_end],
        f.stretch,
        &file[f.start..f.end],
    )
}

// The totals of a file that reads and has so many headers and records.
fn totals(key: &[u8], file: &[u8], headers: usize, records: usize) -> Totals
    requires { (headers ≡ headers_in (read_day file.now)) × (records ≡ records_in (read_day file.now)) }
    ensures { result ≡ totals_of (pauses_in key.now (read_day file.now)) }
{
    let marks = day_marks::marks(file, headers);
    let mut t = Totals {
        read: 0,
        refused: 0,
        sum: 0,
        longest: 0,
    };
    for k in 0..records {
        t = pause_sum::added(t, pause_at(key, file, &marks, records, k));
    }
    t
}

// The report of a file that reads and has so many headers and records.
#[tactic(auto, unfolding(paper::specs::Ledger::report_of))]
fn report_of(key: &[u8], file: &[u8], headers: usize, records: usize) -> Report
    requires { (headers ≡ headers_in (read_day file.now)) × (records ≡ records_in (read_day file.now)) }
    ensures { meaning result ≡ report_of (pauses_in key.now (read_day file.now)) }
{
    mean::with_mean(totals(key, file, headers, records))
}

// The report of a file: 9, then 1. The key's length is tested also where there is no record.
fn reported(key: &[u8], file: &[u8]) -> Result<Report, Refusal>
    ensures { result ≡ reported_as key.now (read_day file.now) }
{
    let Some(day) = day::check(file) else {
        return Err(Refusal::NoRecord);
    };
    if key.len() != 48 {
        return Err(Refusal::KeyLength);
    }
    Ok(report_of(key, file, day.headers, day.records))
}

// The report's line. Nothing is written before the answer is settled.
pub fn report(key: &[u8], file: &[u8], out: &mut [u8]) -> Result<usize, Refusal>
    ensures { outcome result out.new ≡ reporting key.now file.now out.old }
{
    let r = reported(key, file)?;
    let length = line::line_length(r);
    if out.len() < length {
        return Err(Refusal::NoRoom);
    }
    line::put_line(r, out);
    Ok(length)
}

// The report's six numbers in place of the line.
#[tactic(auto, using(crate::proofs::Settled::few_figures))]
pub fn figures(key: &[u8], file: &[u8], out: &mut [u64]) -> Result<usize, Refusal>
    ensures { outcome result out.new ≡ reporting_figures key.now file.now out.old }
{
    let r = reported(key, file)?;
    if out.len() < 6 {
        return Err(Refusal::NoRoom);
    }
    mean::put_figures(r, out);
    Ok(6)
}
