// A whole run of calls on a listing, each compared with the enumeration.
use crate::enumeration::Found;
use crate::facts::{Facts, Pair};
use crate::refusal::Refusal;
use crate::trouble::{Trouble, expect};
use listings::{Listing, PageFault, TakeFault, Taken, Tally, TotalFault};
use records::{Candidate, Link, read};

// What stands in a buffer before a call, and must stand there behind it wherever nothing was to be written.
const MARK: u8 = 165;

// A buffer for takes, and the bytes of a candidate.
const SPACE: usize = 48;

const CANDIDATE: usize = 32;

// A buffer for pages, which has two links and a rest, and the bytes of a link.
const PAGE: usize = 20;

const LINK: usize = 8;

// Whether all bytes but those from `start` to `end` are marks.
fn is_marked(buffer: &[u8], start: usize, end: usize) -> bool {
    buffer
        .iter()
        .enumerate()
        .all(|(i, byte)| start <= i && i < end || *byte == MARK)
}

fn check_tally<C>(listing: &Listing<C>, due: Tally) -> Result<(), Trouble> {
    expect(listing.tally() == due, "a tally")
}

// A take that lacks one byte is refused.
fn check_short_take<C>(listing: &mut Listing<C>) -> Result<(), Trouble> {
    let mut buffer = [MARK; SPACE];
    let taken = listing.take(SPACE - CANDIDATE + 1, &mut buffer);
    expect(
        Refusal::new(TakeFault::NoSpace, 24).is_told_by(&taken),
        "a take without space",
    )?;
    expect(is_marked(&buffer, 0, 0), "the buffer of a refused take")
}

// A page before the first candidate.
fn no_candidate() -> Refusal<PageFault> {
    Refusal::new(PageFault::NoCandidate, 25)
}

fn check_refused_page<C>(
    listing: &Listing<C>,
    from: usize,
    buffer: &mut [u8],
    refusal: Refusal<PageFault>,
) -> Result<(), Trouble> {
    expect(
        refusal.is_told_by(&listing.page(from, buffer)),
        "a page to refuse",
    )?;
    expect(is_marked(buffer, 0, 0), "the buffer of a refused page")
}

// Before a take has said "ended" there is no total.
fn check_early_total<C>(listing: &Listing<C>) -> Result<(), Trouble> {
    expect(
        Refusal::new(TotalFault::NotEnded, 28).is_told_by(&listing.total()),
        "a total before the end",
    )
}

// Before the first take there is nothing to tell.
fn check_start<C>(listing: &mut Listing<C>) -> Result<(), Trouble> {
    check_tally(listing, Tally::default())?;
    check_early_total(listing)?;
    check_refused_page(listing, 0, &mut [MARK; PAGE], no_candidate())?;
    check_short_take(listing)?;
    check_tally(listing, Tally::default())
}

fn check_record(record: Candidate, facts: &Facts, found: &Found) -> Result<(), Trouble> {
    expect(record.code == found.code, "a code")?;
    expect(
        record.links as usize == found.links.len(),
        "a count of links",
    )?;
    expect(
        record.left_linked as usize == found.left_linked,
        "left linked",
    )?;
    expect(
        record.right_linked as usize == found.right_linked,
        "right linked",
    )?;
    expect(
        record.left_present as usize == facts.left_present,
        "left present",
    )?;
    expect(
        record.right_present as usize == facts.right_present,
        "right present",
    )?;
    expect(
        record.conditions as usize == found.conditions,
        "a count of conditions",
    )
}

// Take number `n` hands out this candidate, at an offset that goes through all that there are.
fn check_take<C>(
    listing: &mut Listing<C>,
    n: usize,
    facts: &Facts,
    found: &Found,
) -> Result<(), Trouble> {
    let at = n % (SPACE - CANDIDATE + 1);
    let mut buffer = [MARK; SPACE];
    let taken = listing
        .take(at, &mut buffer)
        .map_err(|_| Trouble::Differs("a take was refused"))?;
    expect(taken == Taken::Handed, "a candidate is missing")?;
    expect(
        is_marked(&buffer, at, at + CANDIDATE),
        "bytes beside a record",
    )?;
    let Ok(record) = read(&buffer[at..], 0) else {
        return Err(Trouble::Differs("a record does not read"));
    };
    check_record(record, facts, found)
}

// Link number `from + j` stands as record `j` of a page.
fn check_link(page: &[u8], j: usize, links: &[Pair], from: usize) -> Result<(), Trouble> {
    let Ok(link) = read::<Link>(page, j) else {
        return Err(Trouble::Differs("a link does not read"));
    };
    let pair = links
        .get(from.saturating_add(j))
        .ok_or(Trouble::Differs("a link too many"))?;
    expect(
        link.left as usize == pair.left && link.right as usize == pair.right,
        "a link",
    )
}

fn check_page<C>(listing: &Listing<C>, links: &[Pair], from: usize) -> Result<(), Trouble> {
    let mut page = [MARK; PAGE];
    let Ok(count) = listing.page(from, &mut page) else {
        return Err(Trouble::Differs("a page was refused"));
    };
    let due = links.len().saturating_sub(from).min(PAGE / LINK);
    expect(count == due, "the length of a page")?;
    expect(
        is_marked(&page, 0, due.saturating_mul(LINK)),
        "bytes beside a page",
    )?;
    // Records of a page are read by number.
    for j in 0..due {
        check_link(&page, j, links, from)?;
    }
    Ok(())
}

// Pages from every link on, and from the end, which has none; a page past it or without space is refused.
fn check_pages<C>(listing: &Listing<C>, links: &[Pair]) -> Result<(), Trouble> {
    for from in 0..=links.len() {
        check_page(listing, links, from)?;
    }
    check_refused_page(
        listing,
        links.len().saturating_add(1),
        &mut [MARK; PAGE],
        Refusal::new(PageFault::PastLinks, 26),
    )?;
    check_refused_page(
        listing,
        0,
        &mut [MARK; LINK - 1],
        Refusal::new(PageFault::NoSpace, 27),
    )
}

// Takes say "ended" from here on, and write nothing.
fn check_ended<C>(listing: &mut Listing<C>, handed: usize, last: u64) -> Result<(), Trouble> {
    let mut buffer = [MARK; SPACE];
    let taken = listing
        .take(1, &mut buffer)
        .map_err(|_| Trouble::Differs("a take at the end was refused"))?;
    expect(taken == Taken::Ended, "a candidate too many")?;
    expect(is_marked(&buffer, 0, 0), "the buffer of a take at the end")?;
    let due = Tally {
        handed: handed as u64,
        last,
        ended: true,
    };
    check_tally(listing, due)?;
    expect(listing.total() == Ok(handed as u64), "a total")
}

// The end, twice, and the links of the last candidate once more.
fn check_end<C>(listing: &mut Listing<C>, expected: &[Found]) -> Result<(), Trouble> {
    let handed = expected.len();
    match expected.last() {
        Some(found) => {
            check_ended(listing, handed, found.code)?;
            check_pages(listing, found.links.as_slice())?;
            check_short_take(listing)?;
            check_ended(listing, handed, found.code)
        }
        None => {
            check_ended(listing, 0, 0)?;
            check_refused_page(listing, 0, &mut [MARK; PAGE], no_candidate())?;
            check_ended(listing, 0, 0)
        }
    }
}

// Goes through a listing that was just started.
pub fn check_listing<C>(
    listing: &mut Listing<C>,
    facts: &Facts,
    expected: &[Found],
) -> Result<(), Trouble> {
    check_start(listing)?;
    for (n, found) in expected.iter().enumerate() {
        check_take(listing, n, facts, found)?;
        check_pages(listing, found.links.as_slice())?;
        check_short_take(listing)?;
        let due = Tally {
            handed: n as u64 + 1,
            last: found.code,
            ended: false,
        };
        check_tally(listing, due)?;
        check_early_total(listing)?;
    }
    check_end(listing, expected)
}
