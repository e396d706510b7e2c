//! Where a reader of `named.conf` is, and what it reports.
ghost use Rattle.std.specs.Prelude.{◌≡◌};
ghost use Rattle.server_config.specs.States.{block_settings, first_state, is_zone, state_around, state_inside, with_block_settings, with_zone};

use crate::settings::{Settings, ZoneSettings};
use crate::token::ConfigToken;

/// A block that may have zones or settings of zones.
#[derive(Clone, Copy, Debug, PartialEq, Eq)]
pub enum ConfigBlock {
    /// No block.
    Outside,
    /// `options`.
    Options,
    /// A view.
    View,
    /// A zone outside of views.
    Zone,
    /// A zone in a view.
    ZoneInView,
}

/// What came last in a block.
#[derive(Clone, Copy, Debug, PartialEq, Eq)]
pub enum LastClause {
    /// A semicolon, or the brace that opens the block.
    Statement,
    /// The closing brace of a block that is passed over. Words and further blocks may follow.
    PassedBlock,
    /// The closing brace of `options`, a view or a zone.
    Block,
}

/// Where a reader is in a configuration, and the settings of the blocks around it.
#[derive(Clone, Copy, Debug, PartialEq, Eq)]
pub struct ConfigState {
    /// The block.
    pub block: ConfigBlock,
    /// The block in which the text begins.
    pub outermost: ConfigBlock,
    /// Number of braces of the block that are open, and passed over.
    pub depth: usize,
    /// What came last in the block.
    pub last: LastClause,
    /// The first word of the view that was opened last.
    pub view_word: ConfigToken,
    /// The first word of the zone or the `options` that were opened last.
    pub block_word: ConfigToken,
    /// The first word of the block that was passed over last.
    pub passed_word: ConfigToken,
    /// The settings of `options`, so far.
    pub options: Settings,
    /// The settings of the view, so far.
    pub view: Settings,
    /// The settings of the zone, so far.
    pub zone: ZoneSettings,
}

/// The name and the class of a view or a zone.
#[derive(Clone, Copy, Debug, PartialEq, Eq)]
pub struct BlockName {
    /// The name: a word or a quoted string.
    pub name: ConfigToken,
    /// The class, if it has one.
    pub class: Option<ConfigToken>,
}

/// What a clause means for zones.
#[derive(Clone, Copy, Debug, PartialEq, Eq)]
pub enum ConfigEvent {
    /// Nothing.
    Passed,
    /// The text ends, in the block in which it begins.
    End,
    /// The statements of other files come next. The quoted string is a path, or a pattern of paths.
    Include(ConfigToken),
    /// The folder of relative paths, a quoted string.
    Directory(ConfigToken),
    /// The file of the zone, a quoted string.
    File(ConfigToken),
    /// The largest TTL of the zones of the block.
    MaxZoneTtl(ConfigToken),
    /// The type of the zone, a word that is not known.
    UnknownType(ConfigToken),
    /// The view begins.
    OpenView(BlockName),
    /// The zone begins.
    OpenZone(BlockName),
    /// `options` begin.
    OpenOptions,
    /// The view ends. Its settings are those of the state before.
    CloseView,
    /// The zone ends. Its settings are those of the state before.
    CloseZone,
    /// `options` end.
    CloseOptions,
}

/// What a clause means, and where the reader is after it.
#[derive(Clone, Copy, Debug, PartialEq, Eq)]
pub struct ConfigStep {
    /// What it means.
    pub event: ConfigEvent,
    /// Where the reader is.
    pub state: ConfigState,
    /// Offset of the next clause.
    pub next: usize,
}

impl ConfigState {
    /// Returns the state at the beginning of a configuration.
    pub fn new() -> ConfigState
        ensures { result ≡ first_state }
    {
        ConfigState {
            block: ConfigBlock::Outside,
            outermost: ConfigBlock::Outside,
            depth: 0,
            last: LastClause::Statement,
            view_word: ConfigToken::none(),
            block_word: ConfigToken::none(),
            passed_word: ConfigToken::none(),
            options: Settings::none(),
            view: Settings::none(),
            zone: ZoneSettings::none(),
        }
    }

    /// Returns the state at the beginning of an included text. The block in which it begins is not
    /// closed in it.
    pub fn inside(&self) -> ConfigState
        ensures { result ≡ state_inside self.now }
    {
        ConfigState {
            outermost: self.block,
            ..*self
        }
    }

    /// Returns the state after an included text that ends in this state. The text that includes it
    /// was in the state `outer`.
    pub fn around(&self, outer: &ConfigState) -> ConfigState
        ensures { result ≡ state_around outer.now self.now }
    {
        ConfigState {
            outermost: outer.outermost,
            ..*self
        }
    }

    /// Returns whether the block is a zone.
    pub(crate) fn is_in_zone(&self) -> bool
        ensures { result ≡ is_zone self.now.block }
    {
        match self.block {
            ConfigBlock::Zone | ConfigBlock::ZoneInView => true,
            ConfigBlock::Outside | ConfigBlock::Options | ConfigBlock::View => false,
        }
    }

    /// Returns the state with other settings of the zone.
    pub(crate) fn with_zone(&self, zone: ZoneSettings) -> ConfigState
        ensures { result ≡ with_zone self.now zone }
    {
        ConfigState { zone, ..*self }
    }

    /// Returns the settings of the block, if it may have some.
    pub(crate) fn block_settings(&self) -> Option<Settings>
        ensures { result ≡ block_settings self.now }
    {
        match self.block {
            ConfigBlock::Outside => None,
            ConfigBlock::Options => Some(self.options),
            ConfigBlock::View => Some(self.view),
            ConfigBlock::Zone | ConfigBlock::ZoneInView => Some(self.zone.settings),
        }
    }

    /// Returns the state with other settings of the block.
    pub(crate) fn with_block_settings(&self, settings: Settings) -> ConfigState
        ensures { result ≡ with_block_settings self.now settings }
    {
        match self.block {
            ConfigBlock::Outside => *self,
            ConfigBlock::Options => ConfigState {
                options: settings,
                ..*self
            },
            ConfigBlock::View => ConfigState {
                view: settings,
                ..*self
            },
            ConfigBlock::Zone | ConfigBlock::ZoneInView => ConfigState {
                zone: ZoneSettings {
                    settings,
                    ..self.zone
                },
                ..*self
            },
        }
    }
}
