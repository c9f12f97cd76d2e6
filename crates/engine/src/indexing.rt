// An index built, after the chart's own test, whose number is handed in: the number, a byte as in the C interface, and the index where it is lent.
ghost use Rattle.std.specs.Prelude.{◌≡◌};
ghost use Rattle.index.specs.Building.{indexed_as, built_after};

#[unsafe(no_mangle)]
pub extern "C" fn tolwaziho_index(
    held: u8,
    transitions: usize,
    sources: &[u64; 64],
    leaving: &mut [u64; 64],
) -> u8
    ensures { indexed_as result leaving.new ≡ built_after held transitions sources.now }
{
    *leaving = if held == 0 {
        index::leaving_of(transitions, sources)
    } else {
        [0; 64]
    };
    held
}
