ghost use Rattle.std.specs.Prelude.{◌≡◌};
ghost use Rattle.scenario.specs.LineKinds.{line_kind_of, is_unbuilt, stands_in_apply};

use wire_io::InputKind;

/// The kind of an input line, named by its member `line`.
#[derive(Clone, Copy, Debug, PartialEq, Eq)]
pub enum LineKind {
    Registry,
    Opening,
    Doc,
    Settings,
    Client,
    Call,
    Import,
    ResolveImport,
    Export,
    Event,
    Fault,
    Stop,
    Entry,
    History,
    Answer,
    End,
    Legacy,
    Enabled,
}

impl LineKind {
    /// The kind of this name. `UnknownLine` where the word names no kind of line.
    pub fn read(word: &str) -> Result<LineKind, InputKind>
        ensures { result ≡ line_kind_of word.now }
    {
        match word {
            "registry" => Ok(LineKind::Registry),
            "opening" => Ok(LineKind::Opening),
            "doc" => Ok(LineKind::Doc),
            "settings" => Ok(LineKind::Settings),
            "client" => Ok(LineKind::Client),
            "call" => Ok(LineKind::Call),
            "import" => Ok(LineKind::Import),
            "resolveImport" => Ok(LineKind::ResolveImport),
            "export" => Ok(LineKind::Export),
            "event" => Ok(LineKind::Event),
            "fault" => Ok(LineKind::Fault),
            "stop" => Ok(LineKind::Stop),
            "entry" => Ok(LineKind::Entry),
            "history" => Ok(LineKind::History),
            "answer" => Ok(LineKind::Answer),
            "end" => Ok(LineKind::End),
            "legacy" => Ok(LineKind::Legacy),
            "enabled" => Ok(LineKind::Enabled),
            _ => Err(InputKind::UnknownLine),
        }
    }

    /// Whether `apply` has lines of this kind that are not read yet.
    pub fn is_unbuilt(self) -> bool
        ensures { result ≡ is_unbuilt self }
    {
        matches!(
            self,
            LineKind::Import | LineKind::ResolveImport | LineKind::Export
        )
    }

    /// Whether a line of this kind may stand in `apply`, where a registry and a call were or were
    /// not there before.
    pub fn stands_in_apply(self, registered: bool, called: bool) -> bool
        ensures { result ≡ stands_in_apply self registered called }
    {
        match self {
            LineKind::Registry => true,
            LineKind::Doc => registered && !called,
            LineKind::Call => registered,
            _ => false,
        }
    }
}
