// The static library of the bench that times records read in both ways: the exports of load_bench, under their names in C.

#![tactic(auto)]

ghost use Rattle.std.specs.Prelude.{◌≡◌, ◌<◌, ◌≤◌, length, replicate};
ghost use Rattle.rules.specs.Record.{position_of, refusal_to6, refusal};
ghost use Rattle.game.specs.Words.{Holds};
ghost use Rattle.cells.specs.Reading.{BoardsRead};

use load_bench::{BenchCells, BenchLoaded};

#[unsafe(no_mangle)]
pub extern "C" fn bench_cells_from_words(bytes: &[u8]) -> BenchCells
    ensures { (21 ≤ length bytes.now → BoardsRead (position_of bytes.now).cells 9 result.words result.rest)
        × (length bytes.now < 21 → (result.words ≡ replicate 23 0) × (result.rest ≡ 0)) }
{
    load_bench::bench_cells_from_words(bytes)
}

#[unsafe(no_mangle)]
pub extern "C" fn bench_cells_bit_by_bit(bytes: &[u8]) -> BenchCells
    ensures { (21 ≤ length bytes.now → BoardsRead (position_of bytes.now).cells 9 result.words result.rest)
        × (length bytes.now < 21 → (result.words ≡ replicate 23 0) × (result.rest ≡ 0)) }
{
    load_bench::bench_cells_bit_by_bit(bytes)
}

#[unsafe(no_mangle)]
pub extern "C" fn bench_load(bytes: &[u8]) -> BenchLoaded
    ensures { (result.code ≡ refusal bytes.now) × (result.code ≡ 0 → Holds (position_of bytes.now) result.words 0) }
{
    load_bench::bench_load(bytes)
}

#[unsafe(no_mangle)]
pub extern "C" fn bench_load_bit_by_bit(bytes: &[u8]) -> BenchLoaded
    ensures { (result.code ≡ refusal bytes.now) × (result.code ≡ 0 → Holds (position_of bytes.now) result.words 0) }
{
    load_bench::bench_load_bit_by_bit(bytes)
}
