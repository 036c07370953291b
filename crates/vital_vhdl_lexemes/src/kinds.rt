//! The kinds of lexemes (IEEE 1076-1993, 13.2).

ghost use Rattle.std.specs.Prelude.{◌≡◌};
ghost use Rattle.vital_vhdl_lexemes.specs.Kinds.{number};

/// What a lexeme is: one variant for each form of identifier and literal, each delimiter and each reserved word.
#[derive(Clone, Copy, Debug, PartialEq, Eq)]
pub enum Kind {
    /// A basic identifier that is no reserved word.
    Identifier,
    /// An extended identifier, as `\bus\`.
    ExtendedIdentifier,
    /// An abstract literal, as `10` or `0.200`.
    Number,
    /// A string literal, as `"Y"`.
    StringLiteral,
    /// A character literal, as `'X'`.
    CharacterLiteral,
    /// An apostrophe that is no part of a character literal.
    Tick,
    /// `=>`
    Arrow,
    /// `:=`
    Assign,
    /// `<=`
    LessOrEqual,
    /// `>=`
    GreaterOrEqual,
    /// `/=`
    NotEqual,
    /// `**`
    DoubleStar,
    /// `<>`
    Box,
    /// `&`
    Ampersand,
    /// `(`
    LeftParenthesis,
    /// `)`
    RightParenthesis,
    /// `*`
    Star,
    /// `+`
    Plus,
    /// `,`
    Comma,
    /// `-`
    Minus,
    /// `.`
    Dot,
    /// `/`
    Slash,
    /// `:`
    Colon,
    /// `;`
    Semicolon,
    /// `<`
    Less,
    /// `=`
    Equal,
    /// `>`
    Greater,
    /// `|`
    Bar,
    /// `abs`
    Abs,
    /// `access`
    Access,
    /// `after`
    After,
    /// `alias`
    Alias,
    /// `all`
    All,
    /// `and`
    And,
    /// `architecture`
    Architecture,
    /// `array`
    Array,
    /// `assert`
    Assert,
    /// `attribute`
    Attribute,
    /// `begin`
    Begin,
    /// `block`
    Block,
    /// `body`
    Body,
    /// `buffer`
    Buffer,
    /// `bus`
    Bus,
    /// `case`
    Case,
    /// `component`
    Component,
    /// `configuration`
    Configuration,
    /// `constant`
    Constant,
    /// `disconnect`
    Disconnect,
    /// `downto`
    Downto,
    /// `else`
    Else,
    /// `elsif`
    Elsif,
    /// `end`
    End,
    /// `entity`
    Entity,
    /// `exit`
    Exit,
    /// `file`
    File,
    /// `for`
    For,
    /// `function`
    Function,
    /// `generate`
    Generate,
    /// `generic`
    Generic,
    /// `group`
    Group,
    /// `guarded`
    Guarded,
    /// `if`
    If,
    /// `impure`
    Impure,
    /// `in`
    In,
    /// `inertial`
    Inertial,
    /// `inout`
    Inout,
    /// `is`
    Is,
    /// `label`
    Label,
    /// `library`
    Library,
    /// `linkage`
    Linkage,
    /// `literal`
    Literal,
    /// `loop`
    Loop,
    /// `map`
    Map,
    /// `mod`
    Mod,
    /// `nand`
    Nand,
    /// `new`
    New,
    /// `next`
    Next,
    /// `nor`
    Nor,
    /// `not`
    Not,
    /// `null`
    Null,
    /// `of`
    Of,
    /// `on`
    On,
    /// `open`
    Open,
    /// `or`
    Or,
    /// `others`
    Others,
    /// `out`
    Out,
    /// `package`
    Package,
    /// `port`
    Port,
    /// `postponed`
    Postponed,
    /// `procedure`
    Procedure,
    /// `process`
    Process,
    /// `pure`
    Pure,
    /// `range`
    Range,
    /// `record`
    Record,
    /// `register`
    Register,
    /// `reject`
    Reject,
    /// `rem`
    Rem,
    /// `report`
    Report,
    /// `return`
    Return,
    /// `rol`
    Rol,
    /// `ror`
    Ror,
    /// `select`
    Select,
    /// `severity`
    Severity,
    /// `shared`
    Shared,
    /// `signal`
    Signal,
    /// `sla`
    Sla,
    /// `sll`
    Sll,
    /// `sra`
    Sra,
    /// `srl`
    Srl,
    /// `subtype`
    Subtype,
    /// `then`
    Then,
    /// `to`
    To,
    /// `transport`
    Transport,
    /// `type`
    Type,
    /// `unaffected`
    Unaffected,
    /// `units`
    Units,
    /// `until`
    Until,
    /// `use`
    Use,
    /// `variable`
    Variable,
    /// `wait`
    Wait,
    /// `when`
    When,
    /// `while`
    While,
    /// `with`
    With,
    /// `xnor`
    Xnor,
    /// `xor`
    Xor,
}

impl Kind {
    /// The kind's number, below 125, by which tokens and grammars name it: its place in the list above, from 0. A
    /// constant has it by `Kind::If as u16`, and a clause by the definition `number`.
    pub fn number(self) -> u16
        ensures { result ≡ number self }
    {
        self as u16
    }
}
