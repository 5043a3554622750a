//! An expression, for who has the text, the names and the table apart.
//!
//! A translation that is made beside the variables that hold the three gets no proof; this function asks for them alone.
ghost use Rattle.listing.specs.Listings.{SameTable};
ghost use Rattle.expressions.specs.Parts as Parts;
ghost use Rattle.expressions.specs.Parts.{whole};
ghost use Rattle.expressions.specs.Says.{Went};
ghost use Rattle.expressions.specs.Apart.{apart, Translates};

use super::Translation;
use cursor::Cursor;
use listing::Listing;
use model::faults::Fault;
use model::script::Ty;
use scopes::Scopes;

/// An expression, where `depth` levels are open around it, for who has the three apart, and not as a translation.
pub fn expression<'a>(
    cursor: &mut Cursor<'a>,
    names: &Scopes<'a>,
    listing: &mut Listing<'a>,
    depth: usize,
) -> Result<Ty, Fault>
    ensures says { Translates Parts.expression (whole Parts.expression) names.now cursor.old listing.old depth cursor.new listing.new result }
    ensures went { Went (apart names.now cursor.old listing.old) result (apart names.now cursor.new listing.new) }
    ensures same { SameTable listing.old listing.new }
{
    let mut translation = Translation {
        cursor,
        names,
        listing,
    };
    translation.expression(depth)
}
