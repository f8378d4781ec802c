// A lent bench written into a lent buffer, and read back.
ghost use Rattle.std.specs.Prelude.{◌≡◌};
ghost use Rattle.image.specs.Items.{restores, item_outcome};
ghost use Rattle.c_bench.specs.Told.{Told, SavesTold};

use bench::Bench;

// The whole bench at a place of the buffer, whose other bytes stay; in a refusal all of them.
pub fn hailstoat_save(bench: &Bench, buffer: &mut [u8], place: usize) -> u64
    ensures { SavesTold bench.now place buffer.old buffer.new result }
{
    c_bench::save(*bench, buffer, place)
}

// The bench becomes the one at a place of the buffer; in a refusal it stays.
pub fn hailstoat_restore(bench: &mut Bench, buffer: &[u8], place: usize) -> u64
    ensures { (bench.new ≡ (item_outcome bench.old (restores buffer.now place)).bench)
        × Told result (item_outcome bench.old (restores buffer.now place)) }
{
    let p = c_bench::restore(*bench, buffer, place);
    *bench = p.bench;
    p.word
}
