//! Reserved words (IEEE 1076-1993, 13.9).

ghost use Rattle.std.specs.Prelude.{◌≡◌, ℕ, ◌+◌, ◌<◌, ◌≤◌, List, ◌∷◌, length, map, unwrap_or, slice_index, slice_range, true};
ghost use Rattle.vital_vhdl_lexemes.specs.Bytes as spec;
ghost use Rattle.std.specs.Str.{bytes_eq};
ghost use Rattle.std.specs.List.{range_with_len};
ghost use Rattle.vital_vhdl_lexemes.specs.Forms.{kind_in, word_kind};
ghost use Rattle.vital_vhdl_lexemes.specs.Kinds.{number};
ghost use Rattle.vital_vhdl_lexemes.specs.ReservedWords.{reserved_words, are_alphabetical};

use crate::kinds::Kind;

/// The reserved words in alphabetical order.
static RESERVED_WORDS: [(&[u8], Kind); 97] = [
    (b"abs", Kind::Abs),
    (b"access", Kind::Access),
    (b"after", Kind::After),
    (b"alias", Kind::Alias),
    (b"all", Kind::All),
    (b"and", Kind::And),
    (b"architecture", Kind::Architecture),
    (b"array", Kind::Array),
    (b"assert", Kind::Assert),
    (b"attribute", Kind::Attribute),
    (b"begin", Kind::Begin),
    (b"block", Kind::Block),
    (b"body", Kind::Body),
    (b"buffer", Kind::Buffer),
    (b"bus", Kind::Bus),
    (b"case", Kind::Case),
    (b"component", Kind::Component),
    (b"configuration", Kind::Configuration),
    (b"constant", Kind::Constant),
    (b"disconnect", Kind::Disconnect),
    (b"downto", Kind::Downto),
    (b"else", Kind::Else),
    (b"elsif", Kind::Elsif),
    (b"end", Kind::End),
    (b"entity", Kind::Entity),
    (b"exit", Kind::Exit),
    (b"file", Kind::File),
    (b"for", Kind::For),
    (b"function", Kind::Function),
    (b"generate", Kind::Generate),
    (b"generic", Kind::Generic),
    (b"group", Kind::Group),
    (b"guarded", Kind::Guarded),
    (b"if", Kind::If),
    (b"impure", Kind::Impure),
    (b"in", Kind::In),
    (b"inertial", Kind::Inertial),
    (b"inout", Kind::Inout),
    (b"is", Kind::Is),
    (b"label", Kind::Label),
    (b"library", Kind::Library),
    (b"linkage", Kind::Linkage),
    (b"literal", Kind::Literal),
    (b"loop", Kind::Loop),
    (b"map", Kind::Map),
    (b"mod", Kind::Mod),
    (b"nand", Kind::Nand),
    (b"new", Kind::New),
    (b"next", Kind::Next),
    (b"nor", Kind::Nor),
    (b"not", Kind::Not),
    (b"null", Kind::Null),
    (b"of", Kind::Of),
    (b"on", Kind::On),
    (b"open", Kind::Open),
    (b"or", Kind::Or),
    (b"others", Kind::Others),
    (b"out", Kind::Out),
    (b"package", Kind::Package),
    (b"port", Kind::Port),
    (b"postponed", Kind::Postponed),
    (b"procedure", Kind::Procedure),
    (b"process", Kind::Process),
    (b"pure", Kind::Pure),
    (b"range", Kind::Range),
    (b"record", Kind::Record),
    (b"register", Kind::Register),
    (b"reject", Kind::Reject),
    (b"rem", Kind::Rem),
    (b"report", Kind::Report),
    (b"return", Kind::Return),
    (b"rol", Kind::Rol),
    (b"ror", Kind::Ror),
    (b"select", Kind::Select),
    (b"severity", Kind::Severity),
    (b"shared", Kind::Shared),
    (b"signal", Kind::Signal),
    (b"sla", Kind::Sla),
    (b"sll", Kind::Sll),
    (b"sra", Kind::Sra),
    (b"srl", Kind::Srl),
    (b"subtype", Kind::Subtype),
    (b"then", Kind::Then),
    (b"to", Kind::To),
    (b"transport", Kind::Transport),
    (b"type", Kind::Type),
    (b"unaffected", Kind::Unaffected),
    (b"units", Kind::Units),
    (b"until", Kind::Until),
    (b"use", Kind::Use),
    (b"variable", Kind::Variable),
    (b"wait", Kind::Wait),
    (b"when", Kind::When),
    (b"while", Kind::While),
    (b"with", Kind::With),
    (b"xnor", Kind::Xnor),
    (b"xor", Kind::Xor),
];

/// How many reserved words stand before those that begin with each letter from `a` to `z`, and how many there are.
static STARTS: [usize; 27] = [
    0, 10, 15, 19, 21, 26, 29, 33, 33, 39, 39, 39, 44, 46, 52, 58, 64, 64, 73, 82, 86, 90, 91, 95,
    97, 97, 97,
];

/// Whether the word is this one in lower case.
fn is_in_lower_case(word: &[u8], lower: &[u8]) -> bool
    ensures { result ≡ bytes_eq lower.now (map spec.lower_case word.now) }
{
    if word.len() != lower.len() {
        return false;
    }
    for i in 0..lower.len() {
        if word[i].to_ascii_lowercase() != lower[i] {
            return false;
        }
    }
    true
}

/// The kind of the word in a table, or that of an identifier.
fn kind_in(mut table: &[(&[u8], Kind)], word: &[u8]) -> Kind
    ensures { result ≡ unwrap_or (kind_in (map (λ entry. (entry.0.now, entry.1)) table.entry.now) (map spec.lower_case word.now)) Kind.Identifier }
{
    while let [entry, rest @ ..] = table {
        if is_in_lower_case(word, entry.0) {
            return entry.1;
        }
        table = rest;
    }
    Kind::Identifier
}

/// Where the reserved words stand that begin with this letter of the alphabet, from 0.
fn places(letter: usize) -> (usize, usize)
    requires { letter < 26 }
    ensures in_order { result.0 ≤ result.1 }
    ensures within { result.1 ≤ 97 }
    ensures own { (rest : List ℕ) → kind_in (slice_range reserved_words result.0 result.1) ((97 + letter) ∷ rest) ≡ kind_in reserved_words ((97 + letter) ∷ rest) }
{
    (STARTS[letter], STARTS[letter + 1])
}

/// The kind of a word: that of the reserved word which it is in lower case, or that of an identifier.
pub fn word_kind(word: &[u8]) -> Kind
    requires some { 0 < length word.now }
    requires letter { spec.is_letter (slice_index word.now 0) ≡ true }
    ensures { result ≡ word_kind word.now }
{
    let letter = word[0].to_ascii_lowercase() - b'a';
    let (start, end) = places(letter as usize);
    kind_in(&RESERVED_WORDS[start..end], word)
}

/// The reserved words stand in alphabetical order, each once, and their kinds have the numbers from 28 to 124 in that order.
pub fn reserved_words_in_order()
    ensures sorted { are_alphabetical (map (λ entry. entry.0) reserved_words) ≡ true }
    ensures numbers { map (λ entry. number entry.1) reserved_words ≡ range_with_len 28 97 }
{}
