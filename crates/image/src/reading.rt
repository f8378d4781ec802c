// The reader of an image.
ghost use Rattle.std.specs.Prelude.{◌≡◌, ◌≤◌, length, drop, IfOk};
ghost use Rattle.std.specs.Result.{result_err};
ghost use Rattle.base.specs.Refusals.{first_held, number_given};
ghost use Rattle.controller.specs.Valid.{latches_high};
ghost use Rattle.bench.specs.Seats.{lines};
ghost use Rattle.image.specs.Layout.{version_of, place_in, length_in};
ghost use Rattle.image.specs.Read.{records_from, controller_from, bench_from};
ghost use Rattle.image.specs.Refusals.{marked, header_grounds, controller_in_range, body_of, refusal, restored};

use crate::Restored;
use base::{Answer, Refusal};
use bench::Bench;
use controller::{Controller, Lines, Operation, Setup};
use records::SEATS;
use seat::Seat;

// Where a seat's record begins; behind the last, how long the image is.
fn place_in(version: u16, k: usize) -> usize
    requires { k ≤ 8 }
    ensures { result ≡ place_in version k }
{
    let size = seat_image::length(version);
    crate::FRONT + size * k
}

#[tactic(auto, unfolding(crate::specs::Refusals::marked))]
fn is_marked(header: &[u8; crate::HEADER]) -> bool
    ensures { result ≡ marked header.now }
{
    matches!(header, [b'B', b'E', b'N', ..])
}

// The version of an image, which is as long as the version has it.
fn version_read(p: &[u8]) -> Result<u16, Refusal>
    ensures refusal { number_given (result_err result) ≡ first_held (header_grounds p.now) }
    ensures version { IfOk result (λ v. v ≡ version_of p.now) }
{
    let Some(header) = p.first_chunk::<{ crate::HEADER }>() else {
        return Err(Refusal::NoRoom);
    };
    if !is_marked(header) {
        return Err(Refusal::WrongMark);
    }
    let version = u16::from_le_bytes([header[3], header[4]]);
    if (version < 1) | (crate::NEWEST < version) {
        return Err(Refusal::UnknownVersion);
    }
    if p.len() < place_in(version, SEATS) {
        return Err(Refusal::NoRoom);
    }
    Ok(version)
}

fn controller_in_range(b: &[u8; crate::CONTROLLER]) -> bool
    ensures { result ≡ controller_in_range b.now }
{
    (b[crate::STAGE] <= 3)
        & (b[crate::LEVEL] <= 1)
        & (b[crate::BASE] % 8 == 0)
        & (b[crate::FIRST] <= 7)
        & (b[crate::SPECIAL] <= 1)
        & (b[crate::AUTOMATIC] <= 1)
        & (b[crate::ROTATION] <= 1)
        & (b[crate::SELECTED] <= 1)
}

fn controller_from(b: &[u8; crate::CONTROLLER], levels: u8) -> Controller
    ensures { result ≡ controller_from b.now levels }
{
    Controller {
        lines: Lines {
            levels,
            latches: b[crate::LATCHES],
        },
        setup: Setup {
            stage: b[crate::STAGE],
            level: b[crate::LEVEL] == 1,
            base: b[crate::BASE],
            automatic: b[crate::AUTOMATIC] == 1,
        },
        operation: Operation {
            mask: b[crate::MASK],
            service: b[crate::SERVICE],
            first: b[crate::FIRST],
            rotation: b[crate::ROTATION] == 1,
            special: b[crate::SPECIAL] == 1,
            selected: b[crate::SELECTED] == 1,
        },
    }
}

fn latches_high(levels: u8, latches: u8) -> bool
    ensures { result ≡ latches_high (record { levels = levels; latches = latches }) }
{
    (0..rank::LINES).all(|line| !base::bit(line, latches) | base::bit(line, levels))
}

fn lines_of(seats: [Seat; SEATS]) -> u8
    ensures { result ≡ lines seats }
{
    let high = seats.map(|seat| seat.line());
    base::byte_of(
        high[0], high[1], high[2], high[3], high[4], high[5], high[6], high[7],
    )
}

// Each seat's record is read from the part that starts at its offset.
fn records_from(p: &[u8], version: u16) -> Option<[Seat; SEATS]>
    requires own { version ≡ version_of p.now }
    requires long { length_in version ≤ length p.now }
    ensures { result ≡ records_from p.now }
{
    let mut seats = [Seat::power_up(); SEATS];
    for k in 0..SEATS {
        let place = place_in(version, k);
        let seat = seat_image::get(&p[place..], version)?;
        seats[k] = seat;
    }
    Some(seats)
}

// The lines are those of the seats just read, and nothing is settled: a restore sets no edge.
fn body_of(p: &[u8], version: u16) -> Option<Bench>
    requires own { version ≡ version_of p.now }
    requires long { length_in version ≤ length p.now }
    ensures { result ≡ body_of p.now }
{
    let seats = records_from(p, version)?;
    let block = p[crate::HEADER..].first_chunk::<{ crate::CONTROLLER }>()?;
    let levels = lines_of(seats);
    if controller_in_range(block) & latches_high(levels, block[crate::LATCHES]) {
        let controller = controller_from(block, levels);
        Some(Bench { seats, controller })
    } else {
        None
    }
}

fn read(p: &[u8]) -> Result<Bench, Refusal>
    ensures refusal { number_given (result_err result) ≡ refusal p.now }
    ensures bench { IfOk result (λ b. b ≡ bench_from p.now) }
{
    let version = version_read(p)?;
    body_of(p, version).ok_or(Refusal::NoSuchBench)
}

// Reads the image at the named place of a lent slice over a bench. From a place past the end there is nothing to read.
pub fn restore(bench: Bench, input: &[u8], at: usize) -> Restored
    ensures { result ≡ restored bench (drop at input.now) }
{
    match read(input.get(at..).unwrap_or(&[])) {
        Ok(read) => Restored {
            bench: read,
            answer: Answer::Done,
        },
        Err(refusal) => Restored {
            bench,
            answer: Answer::Refused(refusal.number()),
        },
    }
}
