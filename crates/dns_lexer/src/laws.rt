//! Laws of splitting.
//! Each function's contract is the law; calling it does nothing.
ghost use Rattle.std.specs.Prelude.{◌≡◌, ◌<◌, ◌≤◌, ◌+◌, ◌++◌, ◌∷◌, ◌↔◌, ◌⊎◌, [], List, Bool};
ghost use Rattle.std.specs.Prelude.{Result, Ok, Err, ℕ, drop, encode_utf8_all, length, map, take};
ghost use Rattle.std.specs.List.{AllByRecursion};
ghost use Rattle.std.specs.Str.{IsUtf8};
ghost use Rattle.dns_lexer.specs.Splitting.{Splits, Entries};
ghost use Rattle.dns_lexer.specs.Lexeme.{Line, lexeme_bytes};
ghost use Rattle.dns_lexer.specs.Viable.{IsBad, IsViable};
ghost use Rattle.dns_lexer.specs.Unclosed.{LacksClosing, IsOpener};
ghost use Rattle.dns_lexer.specs.Token.{IsToken};
ghost use Rattle.dns_lexer.specs.Pieces.{AreOctets, Faulty, IsFault, AreItemsOf, IsOctetPieces};
ghost use Rattle.dns_lexer.specs.Pieces.{IsPieces, IsSpelled, Reads, tokens_by_entry, end_at, later};
ghost use Rattle.dns_lexer.specs.Pieces.{moved_fault, moved_piece, place_of};
ghost use Rattle.dns_lexer.specs.EntryTokens.{IsSeen, PartSeen, IsAsSpelled, entries_seen};
ghost use Rattle.dns_lexer.specs.declared.pieces.Piece.{Piece};
ghost use Rattle.dns_lexer.specs.declared.pieces.Fault.{Fault};

/// A text splits in at most one way.
pub fn splits_one_way()
    ensures { (text : List ℕ) (e f : Entries) → Splits text e → Splits text f → e ≡ f }
{}

/// Every prefix of a text that splits is viable.
pub fn beginnings_are_viable()
    ensures { (x y : List ℕ) (e : Entries) → IsUtf8 x → Splits (x ++ y) e → IsViable x }
{}

/// A text splits into itself alone exactly if it is a token.
pub fn tokens_split_alone()
    ensures { (text : List ℕ) → (Splits text ((text ∷ []) ∷ []) ↔ IsToken text) }
{}

/// The parts that a text splits into are tokens, in at least one entry.
pub fn entries_are_tokens()
    ensures tokens { (text : List ℕ) (found : Entries) → Splits text found
        → AllByRecursion (AllByRecursion IsToken) found }
    ensures some { (text : List ℕ) (found : Entries) → Splits text found → 0 < length found }
{}

/// Of the pieces that the iterator yields, also before an error, each word is a word, each quoted
/// string a quoted string and each comment a comment.
pub fn pieces_are_spelled()
    ensures { (text : List ℕ) (given : List (Result Piece Fault)) → Reads text given
        → AllByRecursion (IsSpelled text) given }
{}

/// A text has at most one list of pieces.
pub fn pieces_come_one_way()
    ensures { (text : List ℕ) (found other : List Piece) → IsPieces text found
        → IsPieces text other → found ≡ other }
{}

/// A text has at most one error, at one offset and with one cause.
pub fn faults_have_one_cause()
    ensures { (text : List ℕ) (f g : Fault) → IsFault text f → IsFault text g → f ≡ g }
{}

/// A bad text has at most one error, and one list of pieces before it.
pub fn faults_come_one_way()
    ensures { (text : List ℕ) (given other : List (Result Piece Fault)) (f : Faulty text given)
        (g : Faulty text other) → (f.found ≡ g.found) × (f.fault ≡ g.fault) }
{}

/// Reading a text has at most one result: one list of pieces, or one error after one list of
/// pieces.
pub fn texts_are_read_one_way()
    ensures { (text : List ℕ) (given other : List (Result Piece Fault)) → Reads text given
        → Reads text other → given ≡ other }
{}

/// Reading octets has at most one result, too.
pub fn octets_are_read_one_way()
    ensures { (octets : List ℕ) (given other : List (Result Piece Fault)) → AreItemsOf octets given
        → AreItemsOf octets other → given ≡ other }
{}

/// Octets up to the end of an entry that isn't the last yield the same pieces whatever follows. The
/// pieces of what follows come next, with their offsets moved.
///
/// So octets can be read in chunks: the entries of a chunk that have ended are returned, and the
/// rest of the chunk is read with the octets after it.
pub fn entries_stay()
    ensures { (octets rest : List ℕ) (found : List Piece) (at : ℕ) (blank : Bool)
        (left alone : List (Result Piece Fault)) → AreOctets octets → AreOctets rest
        → AreItemsOf octets (map Ok found ++ Ok (end_at at blank) ∷ left) → 0 < length left
        → AreItemsOf rest alone
        → AreItemsOf (take at octets ++ rest)
        (map Ok found ++ Ok (end_at at blank) ∷ later at alone) }
{}

/// An error before the end of octets stays the same whatever follows.
pub fn faults_stay()
    ensures { (octets more : List ℕ) (found : List Piece) (fault : Fault) → AreOctets octets
        → AreOctets more → AreItemsOf octets (map Ok found ++ Err fault ∷ [])
        → fault.at < length octets → AreItemsOf (octets ++ more) (map Ok found ++ Err fault ∷ []) }
{}

/// The words and quoted strings of a text's pieces, cut at the ends of entries, are its entries.
pub fn pieces_are_tokens()
    ensures { (text : List ℕ) (found : List Piece) → IsPieces text found
        → Splits text (tokens_by_entry text found) }
{}

/// A text that splits has pieces.
pub fn splits_have_pieces()
    ensures { (text : List ℕ) (e : Entries) → Splits text e → (found : List Piece)
        × IsPieces text found × (tokens_by_entry text found ≡ e) }
{}

/// Texts that split can be joined: with a line end between them they split into the entries of
/// both.
pub fn splits_join()
    ensures { (x y : List ℕ) (has_cr : Bool) (e f : Entries) → Splits x e → Splits y f
        → Splits (x ++ (lexeme_bytes (Line has_cr) ++ y)) (e ++ f) }
{}

/// If a bad text follows a text that splits, with a line end between, the offset of its error is
/// moved.
pub fn bad_texts_join()
    ensures { (x y : List ℕ) (has_cr : Bool) (e : Entries) (at : ℕ) → Splits x e → IsBad y at
        → IsBad (x ++ (lexeme_bytes (Line has_cr) ++ y)) (length x + length (lexeme_bytes (Line has_cr)) + at) }
{}

/// The error is then that of the bad text, moved.
pub fn faults_join()
    ensures { (x y : List ℕ) (has_cr : Bool) (e : Entries) (fault : Fault) → Splits x e
        → IsFault y fault
        → IsFault (x ++ (lexeme_bytes (Line has_cr) ++ y))
        (moved_fault (λ i. length x + length (lexeme_bytes (Line has_cr)) + i) fault) }
{}

/// The outermost open parenthesis is then that of the bad text, moved.
pub fn openers_join()
    ensures { (x y : List ℕ) (has_cr : Bool) (e : Entries) (at : ℕ) → Splits x e → IsOpener y at
        → IsOpener (x ++ (lexeme_bytes (Line has_cr) ++ y)) (length x + length (lexeme_bytes (Line has_cr)) + at) }
{}

/// A text can be cut at the end of every entry but the last.
pub fn splits_are_cut()
    ensures { (text : List ℕ) (e f : Entries) → Splits text (e ++ f) → 0 < length e → 0 < length f
        → (x : List ℕ) × (y : List ℕ) × (has_cr : Bool)
        × (text ≡ x ++ (lexeme_bytes (Line has_cr) ++ y)) × Splits x e × Splits y f }
{}

/// The pieces of texts join in the same way: the last end of the first text moves after the line
/// end.
pub fn pieces_join()
    ensures { (x y : List ℕ) (has_cr : Bool) (found follow : List Piece) → IsPieces x found
        → IsPieces y follow
        → (front : List Piece) × (blank : Bool) × (found ≡ front ++ end_at (length x) blank ∷ [])
        × IsPieces (x ++ (lexeme_bytes (Line has_cr) ++ y))
        (front ++ end_at (length x + length (lexeme_bytes (Line has_cr))) blank
        ∷ map (moved_piece (λ i. length x + length (lexeme_bytes (Line has_cr)) + i)) follow) }
{}

/// After the end of an entry that isn't the last, the pieces are those of the rest alone, moved.
pub fn pieces_continue()
    ensures { (text : List ℕ) (found more : List Piece) (at : ℕ) (blank : Bool)
        → IsPieces text (found ++ end_at at blank ∷ more)
        → (more ≡ []) ⊎ ((alone : List Piece) × IsPieces (drop at text) alone
        × (more ≡ map (moved_piece (λ i. at + i)) alone)) }
{}

/// The same holds of octets, each a character: these are the pieces of
/// [`Pieces::of_octets_starting_at`].
///
/// [`Pieces::of_octets_starting_at`]: crate::pieces::Pieces::of_octets_starting_at
pub fn octet_pieces_continue()
    ensures { (octets : List ℕ) (found more : List Piece) (at : ℕ) (blank : Bool)
        → at ≤ length octets → IsOctetPieces octets (found ++ end_at at blank ∷ more)
        → (more ≡ []) ⊎ ((alone : List Piece) × IsOctetPieces (drop at octets) alone
        × (more ≡ map (moved_piece (λ i. at + i)) alone)) }
{}

/// UTF-8 text and its octets, each a character, yield the same: the same pieces before the same
/// error, with its cause. The outermost open parenthesis is also the same.
pub fn octets_agree(text: &str)
    ensures given { (given : List (Result Piece Fault))
        → (Reads text.now given ↔ AreItemsOf text.now given) }
    ensures pieces { (found : List Piece) → IsPieces text.now found → IsOctetPieces text.now found }
    ensures bad { (at : ℕ) → IsBad text.now at
        → IsBad (encode_utf8_all text.now) (place_of text.now at) }
    ensures fault { (fault : Fault) → IsFault text.now fault
        → IsFault (encode_utf8_all text.now) (moved_fault (place_of text.now) fault) }
    ensures opener { LacksClosing text.now → (at : ℕ) → IsOpener text.now at
        → IsOpener (encode_utf8_all text.now) (place_of text.now at) }
{}

/// Octets have at most one list of tokens.
pub fn tokens_are_seen_one_way()
    ensures { (octets : List ℕ) (seen other : List (Result PartSeen Fault)) → IsSeen octets seen
        → IsSeen octets other → seen ≡ other }
{}

/// The tokens of octets, as they are spelled and cut at the ends of entries, are the octets' pieces
/// cut in the same way, and so the entries that a text splits into.
pub fn seen_tokens_are_entries()
    ensures octets { (octets : List ℕ) (found : List Piece) (seen : List (Result PartSeen Fault))
        → AreItemsOf octets (map Ok found) → IsSeen octets seen → entries_seen seen ≡ tokens_by_entry octets found }
    ensures text { (text : List ℕ) (found : Entries) (seen : List (Result PartSeen Fault))
        → AreOctets text → Splits text found → IsSeen text seen → entries_seen seen ≡ found }
{}

/// Each token of octets, also before an error, is at its offset as it is spelled.
pub fn seen_tokens_are_spelled()
    ensures { (octets : List ℕ) (seen : List (Result PartSeen Fault)) → IsSeen octets seen
        → AllByRecursion (IsAsSpelled octets) seen }
{}
