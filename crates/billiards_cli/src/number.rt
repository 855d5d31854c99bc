ghost use Rattle.std.specs.Prelude.{◌≡◌};
ghost use Rattle.billiards_cli.specs.Arguments.{number_up_to};

use rat_core::read_decimal;

/// The number whose canonical decimal text this is, where it is at most the bound.
pub(crate) fn number(text: &[u8], bound: u32) -> Option<u32>
    ensures { result ≡ number_up_to bound text.now }
{
    read_decimal(text, bound)
}
