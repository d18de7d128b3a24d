// The word that stands before the type of a measured leaf in a text.
//
// It names no type and no function, so it has no number and stands in no index: a run is compared with it alone.

ghost use Rattle.std.specs.Prelude.{◌≡◌};
ghost use Rattle.names.specs.Names.{same, measured_name};

use crate::index::is_same;

// The bytes of the word.
const LENGTH: usize = 8;

const MEASURED: [u8; LENGTH] = *b"measured";

// The word's bytes.
pub fn measured_name() -> [u8; LENGTH]
    ensures { result ≡ measured_name }
{
    MEASURED
}

// Whether a run is the word.
pub fn is_measured(run: &[u8]) -> bool
    ensures { result ≡ same run.now measured_name }
{
    is_same(run, &measured_name())
}
