//! Texts that are cut into the longest words of a dictionary.

ghost use Rattle.std.specs.Prelude.{◌≡◌, ◌≢◌, ◌++◌, ℕ, List, [], length, replicate};
ghost use Rattle.std.specs.Prelude.{map as list_map, IfOk, OnOk, OnErr, IfSome, IfNone};
ghost use Rattle.std.specs.FinMap as map;
ghost use Rattle.patricia_tree.specs.Keys.{Begins, key_cmp};
ghost use Rattle.patricia_tree.specs.TextKind.{IsTextItem};
ghost use Rattle.prefixes_core.specs.Internal.Cuts.{IsFoundFor, CutsOn, AreCut, AreAllSegments};
ghost use Rattle.prefixes_core.specs.Internal.Cuts.{pieces_in};
ghost use Rattle.prefixes_core.specs.Segments.{AreSegments, IsFirstPiece};

use patricia_tree::StringPatriciaMap;
use std::alloc::{AllocError, Global};

// How often a piece is cut off each of some texts at most, before each is cut by itself.
const ROUNDS: usize = 32;

// The first character of a text, or `None` where it is empty.
fn first_char(text: &str) -> Option<&str>
    ensures char { IfSome result (λ char. IsTextItem char.now × Begins char.now text.now) }
    ensures none { IfNone result (text.now ≡ []) }
{
    let first = text.chars().next()?;
    Some(&text[..first.len_utf8()])
}

// What a text is cut to first, for which this is found, or `None` where it is empty.
fn piece_of<'a, V>(found: Option<(&'a str, &V)>, text: &'a str) -> Option<&'a str>
    ensures some { IfSome result (λ piece. (dictionary : map.FinMap key_cmp V)
        → IsFoundFor dictionary text.now found.entry
        → IsFirstPiece dictionary text.now piece.now) }
    ensures none { IfNone result (text.now ≡ []) }
{
    match found {
        Some((word, _)) => {
            if word.is_empty() {
                first_char(text)
            } else {
                Some(word)
            }
        }
        None => first_char(text),
    }
}

// What a text is cut to first, or `None` where it is empty.
fn first_piece<'a, V: Drop>(dictionary: &StringPatriciaMap<V>, text: &'a str) -> Option<&'a str>
    ensures some { IfSome result (λ piece. IsFirstPiece dictionary.now text.now piece.now) }
    ensures none { IfNone result (text.now ≡ []) }
{
    piece_of(dictionary.get_longest_common_prefix(text), text)
}

// What is behind the front of a text.
fn behind<'a>(text: &'a str, front: &str) -> &'a str
    requires { Begins front.now text.now }
    ensures { text.now ≡ front.now ++ result.now }
{
    &text[front.len()..]
}

// Cuts all that is left of a text into pieces.
fn cut_rest<'a, V: Drop>(
    dictionary: &StringPatriciaMap<V>,
    text: &'a str,
    pieces: &mut Vec<&'a str>,
) -> Result<(), AllocError>
    ensures ok { OnOk result
        (CutsOn dictionary.now (pieces_in pieces.old) text.now (pieces_in pieces.new) []) }
    ensures err { OnErr result (text.now ≢ []) }
{
    let mut rest = text;
    while let Some(piece) = first_piece(dictionary, rest) {
        pieces.push(piece)?;
        rest = behind(rest, piece);
    }
    Ok(())
}

/// Cuts a text into the longest words of a dictionary, which are the keys of a map.
///
/// From the front on, each piece is the longest nonempty word that begins what is left of the
/// text, or its first character where no word does. The pieces are parts of the text, and together
/// they are the text. Takes a look-up for each piece.
///
/// # Errors
///
/// Out of memory for the list of pieces, never for the empty text.
///
/// # Examples
///
/// ```
/// let words = [("app", ()), ("apple", ()), ("pie", ())];
/// let dictionary = StringPatriciaMap::from_iter(rt.alloc(), words)?;
/// let pieces = segment(rt.alloc(), &dictionary, "xapplepie")?;
/// assert_eq!(rt; pieces.as_slice(), ["x", "apple", "pie"].as_slice());
/// ```
pub fn segment<'a, V: Drop>(
    alloc: Global,
    dictionary: &StringPatriciaMap<V>,
    text: &'a str,
) -> Result<Vec<&'a str>, AllocError>
    ensures ok { IfOk result (λ pieces.
        AreSegments dictionary.now text.now (list_map (λ piece. piece.now) pieces.items)) }
    ensures err { OnErr result (text.now ≢ []) }
{
    let mut pieces = Vec::new(alloc);
    cut_rest(dictionary, text, &mut pieces)?;
    Ok(pieces)
}

// Cuts a piece off what is left of a text, for which this is found, and returns what is left then.
fn cut_off<'a, V>(
    found: Option<(&'a str, &V)>,
    rest: &'a str,
    pieces: &mut Vec<&'a str>,
) -> Result<&'a str, AllocError>
    requires { (dictionary : map.FinMap key_cmp V)
        × IsFoundFor dictionary rest.now found }
    ensures { IfOk result (λ left. (dictionary : map.FinMap key_cmp V)
        → IsFoundFor dictionary rest.now found.entry
        → CutsOn dictionary (pieces_in pieces.old) rest.now (pieces_in pieces.new) left.now) }
{
    let Some(piece) = piece_of(found, rest) else {
        return Ok(rest);
    };
    pieces.push(piece)?;
    Ok(behind(rest, piece))
}

// Looks up what is left of texts side by side, and cuts a piece off each, as long as something is
// left of it. Returns whether something is left of one then.
fn cut_each<'a, V: Drop>(
    dictionary: &StringPatriciaMap<V>,
    rests: &mut [&'a str],
    pieces: &mut [Vec<&'a str>],
) -> Result<bool, AllocError>
    requires { length pieces.old ≡ length rests.old }
    ensures { OnOk result ((texts : List (List ℕ)) → AreCut dictionary.now texts
        (list_map pieces_in pieces.old) (list_map (λ rest. rest.now) rests.old)
        → AreCut dictionary.now texts
        (list_map pieces_in pieces.new) (list_map (λ rest. rest.now) rests.new)) }
{
    let found = dictionary.longest_many(rests)?;
    let mut is_left = false;
    for i in 0..rests.len() {
        let rest = cut_off(found[i], rests[i], &mut pieces[i])?;
        is_left |= !rest.is_empty();
        rests[i] = rest;
    }
    Ok(is_left)
}

// Cuts pieces off texts side by side, until nothing is left of them or many are cut off.
fn cut_rounds<'a, V: Drop>(
    dictionary: &StringPatriciaMap<V>,
    rests: &mut [&'a str],
    pieces: &mut [Vec<&'a str>],
) -> Result<(), AllocError>
    requires { length pieces.old ≡ length rests.old }
    ensures { OnOk result ((texts : List (List ℕ)) → AreCut dictionary.now texts
        (list_map pieces_in pieces.old) (list_map (λ rest. rest.now) rests.old)
        → AreCut dictionary.now texts
        (list_map pieces_in pieces.new) (list_map (λ rest. rest.now) rests.new)) }
{
    for _ in 0..ROUNDS {
        let is_left = cut_each(dictionary, rests, pieces)?;
        if !is_left {
            return Ok(());
        }
    }
    Ok(())
}

// Cuts all that is left of texts into pieces, one text after the other.
fn cut_rests<'a, V: Drop>(
    dictionary: &StringPatriciaMap<V>,
    rests: &[&'a str],
    pieces: &mut [Vec<&'a str>],
) -> Result<(), AllocError>
    requires { length pieces.old ≡ length rests.now }
    ensures { OnOk result ((texts : List (List ℕ)) → AreCut dictionary.now texts
        (list_map pieces_in pieces.old) (list_map (λ rest. rest.now) rests.now)
        → AreAllSegments dictionary.now texts (list_map pieces_in pieces.new)) }
{
    for (i, rest) in rests.iter().enumerate() {
        cut_rest(dictionary, rest, &mut pieces[i])?;
    }
    Ok(())
}

// Makes so many lists without pieces.
fn no_pieces<'a>(alloc: Global, count: usize) -> Result<Vec<Vec<&'a str>>, AllocError>
    ensures { IfOk result (λ pieces. list_map pieces_in pieces.items ≡ replicate count []) }
{
    let mut pieces = Vec::new(alloc);
    for _ in 0..count {
        pieces.push(Vec::new(alloc))?;
    }
    Ok(pieces)
}

/// Cuts texts into the longest words of a dictionary, as [`segment`] cuts one. What is left of
/// them is looked up side by side.
///
/// # Errors
///
/// Out of memory for the lists.
pub(crate) fn segment_all<'a, V: Drop>(
    alloc: Global,
    dictionary: &StringPatriciaMap<V>,
    texts: &[&'a str],
) -> Result<Vec<Vec<&'a str>>, AllocError>
    ensures { IfOk result (λ pieces. AreAllSegments dictionary.now
        (list_map (λ text. text.now) texts.now) (list_map pieces_in pieces.items)) }
{
    let mut pieces = no_pieces(alloc, texts.len())?;
    let mut rests = Vec::new(alloc);
    rests.extend_from_slice(texts)?;
    cut_rounds(dictionary, &mut rests, &mut pieces)?;
    cut_rests(dictionary, &rests, &mut pieces)?;
    Ok(pieces)
}
