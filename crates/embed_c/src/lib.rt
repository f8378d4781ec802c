// The archive for C: each call of the room `embed` under its name in C, with the same clauses. A room that is an archive is no library,
// so the laws and the demands speak of `embed`.
#![tactic(auto)]

ghost use Rattle.std.specs.Prelude.{◌≡◌, false};
ghost use Rattle.base.specs.Bits.{digit};
ghost use Rattle.rates.specs.Rates.{divisor_of};
ghost use Rattle.controller.specs.Steps.{placed};
ghost use Rattle.controller.specs.Turns.{output_of};
ghost use Rattle.records.specs.Events.{whole};
ghost use Rattle.bench.specs.Seats.{power_up};
ghost use Rattle.bench.specs.Steps.{outcome};
ghost use Rattle.bench.specs.Tallies.{tallies_of};
ghost use Rattle.image.specs.Items.{restores, item_outcome};
ghost use Rattle.c_word.specs.Word.{Tells};
ghost use Rattle.c_bench.specs.Told.{Told, SavesTold};
ghost use Rattle.c_bench.specs.Outputs.{outputs_at};
ghost use Rattle.embed.specs.Version.{version};
ghost use Rattle.embed.specs.Bytes.{bench_bytes};
ghost use Rattle.embed.specs.Settings.{ReadsTold, WritesTold};

use bench::Bench;
use seat::Five;

#[unsafe(no_mangle)]
pub extern "C" fn hailstoat_version() -> u32
    ensures { result ≡ version }
{
    embed::hailstoat_version()
}

#[unsafe(no_mangle)]
pub extern "C" fn hailstoat_size() -> usize
    ensures { result ≡ bench_bytes }
{
    embed::hailstoat_size()
}

#[unsafe(no_mangle)]
pub extern "C" fn hailstoat_divisor(rate: u32, clock: u32) -> u64
    ensures { Tells result (divisor_of rate clock) false }
{
    embed::hailstoat_divisor(rate, clock)
}

#[unsafe(no_mangle)]
pub extern "C" fn hailstoat_power_up(bench: &mut Bench)
    ensures { bench.new ≡ power_up }
{
    embed::hailstoat_power_up(bench);
}

#[unsafe(no_mangle)]
pub extern "C" fn hailstoat_event(
    bench: &mut Bench,
    kind: u32,
    seat: u32,
    number: u32,
    value: u8,
) -> u64
    ensures { (bench.new ≡ (outcome bench.old (whole kind seat number value)).bench)
        × Told result (outcome bench.old (whole kind seat number value)) }
{
    embed::hailstoat_event(bench, kind, seat, number, value)
}

#[unsafe(no_mangle)]
pub extern "C" fn hailstoat_place(bench: &Bench, line: u32) -> u64
    ensures { Tells result (placed bench.now.controller line) false }
{
    embed::hailstoat_place(bench, line)
}

#[unsafe(no_mangle)]
pub extern "C" fn hailstoat_output(bench: &Bench) -> u8
    ensures { result ≡ digit (output_of bench.now.controller) }
{
    embed::hailstoat_output(bench)
}

#[unsafe(no_mangle)]
pub extern "C" fn hailstoat_modem_outputs(bench: &Bench, seat: u32) -> u64
    ensures { Tells result (outputs_at bench.now seat) false }
{
    embed::hailstoat_modem_outputs(bench, seat)
}

#[unsafe(no_mangle)]
pub extern "C" fn hailstoat_tallies(bench: &Bench, seat: u32, out: &mut Five) -> u64
    ensures { (out.new ≡ (tallies_of bench.now seat).five) × Tells result (tallies_of bench.now seat).answer false }
{
    embed::hailstoat_tallies(bench, seat, out)
}

#[unsafe(no_mangle)]
pub extern "C" fn hailstoat_read_setting(line: &[u8], clock: u32, lcr: &mut u8) -> u64
    ensures { ReadsTold line.now clock lcr.new result }
{
    embed::hailstoat_read_setting(line, clock, lcr)
}

#[unsafe(no_mangle)]
pub extern "C" fn hailstoat_write_setting(
    divisor: u32,
    lcr: u32,
    clock: u32,
    buffer: &mut [u8],
) -> u64
    ensures { WritesTold clock divisor lcr buffer.old buffer.new result }
{
    embed::hailstoat_write_setting(divisor, lcr, clock, buffer)
}

#[unsafe(no_mangle)]
pub extern "C" fn hailstoat_save(bench: &Bench, buffer: &mut [u8], place: usize) -> u64
    ensures { SavesTold bench.now place buffer.old buffer.new result }
{
    embed::hailstoat_save(bench, buffer, place)
}

#[unsafe(no_mangle)]
pub extern "C" fn hailstoat_restore(bench: &mut Bench, buffer: &[u8], place: usize) -> u64
    ensures { (bench.new ≡ (item_outcome bench.old (restores buffer.now place)).bench)
        × Told result (item_outcome bench.old (restores buffer.now place)) }
{
    embed::hailstoat_restore(bench, buffer, place)
}
