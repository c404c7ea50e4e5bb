//! Which characters end a cluster, begin one, or go on with one (Unicode Standard Annex #29).

ghost use Rattle.std.specs.Prelude.{◌≡◌, ◌++◌, List, IfSome, [], ◌∷◌, ℕ};
ghost use Rattle.cluster_text.specs.Boundaries.{closes as closes_on, is_free as is_free_class, is_plain as is_plain_text, is_special, is_indicator as is_indicator_on, is_mark as is_mark_on};
ghost use Rattle.cluster_text.specs.Endings.{stays_open};
ghost use Rattle.ucd_derived.specs.IndicConjunctBreak.{indic_conjunct_break};
ghost use Rattle.std.specs.List.{list_any};
ghost use Rattle.ucd_breaks.specs.GraphemeClusterBreak.{grapheme_cluster_break};
ghost use Rattle.unicode_segmentation.specs.Grapheme.{is_regional as is_regional_class};
ghost use Rattle.cluster_text.specs.Boundaries.{is_linking as is_linking_class, is_joining as is_joining_class, opens as opens_on};

use ucd_breaks::GraphemeClusterBreak;
use ucd_derived::IndicConjunctBreak;

/// Whether a cluster ends after the character, where none that joins could go on with it.
pub(crate) fn closes(c: char) -> bool
    ensures { result ≡ closes_on c }
{
    is_free(GraphemeClusterBreak::for_char(c)) && !is_linking(IndicConjunctBreak::for_char(c))
}

/// Whether the character goes on with no cluster that such a character ends, and no rule looks past it.
pub(crate) fn opens(c: char) -> bool
    ensures { result ≡ opens_on c }
{
    !is_joining(GraphemeClusterBreak::for_char(c)) && !is_linking(IndicConjunctBreak::for_char(c))
}

/// Whether the character is a regional indicator: two of them make a flag.
pub(crate) fn is_regional(c: char) -> bool
    ensures { result ≡ is_regional_class (grapheme_cluster_break c) }
{
    matches!(
        GraphemeClusterBreak::for_char(c),
        GraphemeClusterBreak::RegionalIndicator
    )
}

/// Whether it is one, and the rule on conjuncts does not look past it.
pub(crate) fn is_indicator(c: char) -> bool
    ensures { result ≡ is_indicator_on c }
{
    is_regional(c) && !is_linking(IndicConjunctBreak::for_char(c))
}

/// Whether the character is a mark on what stands before it.
pub(crate) fn is_mark(c: char) -> bool
    ensures { result ≡ is_mark_on c }
{
    matches!(
        GraphemeClusterBreak::for_char(c),
        GraphemeClusterBreak::Extend | GraphemeClusterBreak::SpacingMark
    )
}

/// Whether a conjunct is open after the character, where `before` tells whether one was before it.
pub(crate) fn leaves_open(c: char, before: bool) -> bool
    ensures { result ≡ stays_open (indic_conjunct_break c) before }
{
    match IndicConjunctBreak::for_char(c) {
        IndicConjunctBreak::Linker => true,
        IndicConjunctBreak::Extend => before,
        _ => false,
    }
}

/// Whether all characters of the text are of ASCII and none is a CR, so that each is a cluster of its own.
pub(crate) fn is_plain(text: &str) -> bool
    ensures { result ≡ is_plain_text text.now }
{
    !has_special(text.as_bytes())
}

fn has_special(bytes: &[u8]) -> bool
    ensures { result ≡ list_any is_special bytes.now }
{
    bytes.iter().any(|byte| *byte >= 128 || *byte == b'\r')
}

fn is_free(class: GraphemeClusterBreak) -> bool
    ensures { result ≡ is_free_class class }
{
    matches!(
        class,
        GraphemeClusterBreak::Other
            | GraphemeClusterBreak::Control
            | GraphemeClusterBreak::Lf
            | GraphemeClusterBreak::Lv
            | GraphemeClusterBreak::Lvt
            | GraphemeClusterBreak::V
            | GraphemeClusterBreak::T
    )
}

fn is_joining(class: GraphemeClusterBreak) -> bool
    ensures { result ≡ is_joining_class class }
{
    matches!(
        class,
        GraphemeClusterBreak::Extend
            | GraphemeClusterBreak::Zwj
            | GraphemeClusterBreak::SpacingMark
            | GraphemeClusterBreak::V
            | GraphemeClusterBreak::T
    )
}

fn is_linking(class: IndicConjunctBreak) -> bool
    ensures { result ≡ is_linking_class class }
{
    matches!(
        class,
        IndicConjunctBreak::Linker | IndicConjunctBreak::Extend
    )
}
