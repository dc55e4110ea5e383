// Inner functions under names that C can call, for the differential run and the benchmark alone: the viewer links none of these.
// Each takes any numbers, and answers OUTSIDE where its function's domain ends. `across` has those on columns.
#![tactic(auto)]

mod across;

ghost use Rattle.std.specs.Prelude.{◌≡◌};
ghost use Rattle.probe.specs.Probes.{tally_probe, symbol_probe};

// No shade has this number: they end at 64. C asks for a number.
pub const OUTSIDE: u8 = 255;

#[unsafe(no_mangle)]
pub extern "C" fn probe_tally_shade(tally: u64, cells: u64) -> u8
    ensures { result ≡ tally_probe tally cells }
{
    if tally <= cells && (1..=limits::MAX_CELLS).contains(&cells) {
        shade::tally_shade(tally, cells)
    } else {
        OUTSIDE
    }
}

#[unsafe(no_mangle)]
pub extern "C" fn probe_symbol_shade(symbol: u8, symbols: u32) -> u8
    ensures { result ≡ symbol_probe symbol symbols }
{
    if u64::from(symbols) <= limits::MAX_SYMBOLS && u32::from(symbol) < symbols {
        shade::symbol_shade(symbol, symbols)
    } else {
        OUTSIDE
    }
}
