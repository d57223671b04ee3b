// Whether the lists that a caller hands to the writer of a day file, request E1, are within the layout.
#![tactic(auto)]

ghost use Rattle.std.specs.Prelude.{[], ◌≡◌};
ghost use Rattle.paper.specs.DayFile.{present, record_fits, headers_of};
ghost use Rattle.day_fit.specs.Fits.{records_right};

// Whether joined headers are of these lengths, and each reads.
pub fn headers_fit(lengths: &[u64], headers: &[u8]) -> bool
    ensures { result ≡ present (headers_of lengths.now headers.now) }
{
    let mut rest = headers;
    for n in lengths {
        if (rest.len() as u64) < *n {
            return false;
        }
        let (header, more) = rest.split_at(*n as usize);
        if header::read(header).is_err() {
            return false;
        }
        rest = more;
    }
    rest.is_empty()
}

// Whether a record of this header's number and stretch is within the layout, where there are so many headers.
fn fits(headers: usize, number: u64, stretch: u64) -> bool
    ensures { result ≡ record_fits headers (record { header = number; stretch = stretch; sealed = [] }) }
{
    number <= 65535 && number < headers as u64 && stretch <= 64
}

// Whether the three lists of the records are of one length, the lengths those of all the sealed bytes, and each record within the layout, where
// there are so many headers. The lists come as such from the C interface.
pub fn records_fit(
    headers: usize,
    numbers: &[u64],
    stretches: &[u64],
    sizes: &[u64],
    sealed: &[u8],
) -> bool
    ensures { result ≡ records_right headers numbers.now stretches.now sizes.now sealed.now }
{
    if numbers.len() != sizes.len() || stretches.len() != sizes.len() {
        return false;
    }
    let mut left = sealed;
    for (i, n) in sizes.iter().enumerate() {
        if (left.len() as u64) < *n || !fits(headers, numbers[i], stretches[i]) {
            return false;
        }
        left = left.split_at(*n as usize).1;
    }
    left.is_empty()
}
