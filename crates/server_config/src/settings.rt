//! What a configuration says of zones.
ghost use Rattle.std.specs.Prelude.{◌≡◌};
ghost use Rattle.server_config.specs.Settings.{inner_or, is_set, no_settings, no_zone_settings, primary_outcome, settled, signs_zones, zone_outcome};

/// The type of a zone.
#[derive(Clone, Copy, Debug, PartialEq, Eq)]
pub enum ZoneType {
    /// `primary`, `master`, or `native`, which PowerDNS has for a primary zone.
    Primary,
    /// `secondary` or `slave`.
    Secondary,
    /// `mirror`.
    Mirror,
    /// `stub` or `static-stub`.
    Stub,
    /// `hint`.
    Hint,
    /// `forward`.
    Forward,
    /// `redirect`.
    Redirect,
    /// `delegation-only`.
    DelegationOnly,
    /// Another word.
    Unknown,
}

/// The format of a zone's file: `masterfile-format`.
#[derive(Clone, Copy, Debug, PartialEq, Eq)]
pub enum FileFormat {
    /// Presentation format.
    Text,
    /// `raw`.
    Raw,
    /// `map`.
    Map,
}

/// What `check-names` does with a name that isn't a host name.
#[derive(Clone, Copy, Debug, PartialEq, Eq)]
pub enum Severity {
    /// The zone is rejected.
    Fail,
    /// The name is reported.
    Warn,
    /// The name is accepted.
    Ignore,
}

/// Settings of `options`, of a view or of a zone.
#[derive(Clone, Copy, Debug, PartialEq, Eq)]
pub struct Settings {
    /// The format of files.
    pub format: Option<FileFormat>,
    /// The severity of `check-names` for primary zones.
    pub check_names: Option<Severity>,
    /// Whether the server signs zones by `inline-signing`.
    pub inline_signing: Option<bool>,
    /// Whether the server signs zones by a `dnssec-policy`.
    pub has_policy: Option<bool>,
    /// Whether the server signs zones by `auto-dnssec`.
    pub auto_dnssec: Option<bool>,
}

/// Settings of a zone.
#[derive(Clone, Copy, Debug, PartialEq, Eq)]
pub struct ZoneSettings {
    /// The type.
    pub zone_type: Option<ZoneType>,
    /// Whether it has a file.
    pub has_file: bool,
    /// Whether it is a zone of another view (`in-view`).
    pub is_in_view: bool,
    /// Whether its records are in a database (`database`, `dlz`).
    pub has_database: bool,
    /// Whether it has the settings of a template.
    pub has_template: bool,
    /// The settings that it shares with `options` and views.
    pub settings: Settings,
}

/// Why the file of a zone is not checked.
#[derive(Clone, Copy, Debug, PartialEq, Eq)]
pub enum OmitReason {
    /// The zone is one of another view.
    InView,
    /// The zone has a template, which BIND 9.18 doesn't have.
    Template,
    /// The zone is of another type than primary.
    OtherType,
    /// The type of the zone is not known.
    UnknownType,
    /// The records are in a database.
    Database,
    /// The file is not in presentation format.
    Format,
}

/// What becomes of a zone.
#[derive(Clone, Copy, Debug, PartialEq, Eq)]
pub enum ZoneOutcome {
    /// Its file is checked.
    Checked,
    /// Its file is not checked.
    Omitted(OmitReason),
    /// It has no type.
    NoType,
    /// It is a primary zone without a file.
    NoFile,
}

/// Returns the setting of a block, or that of the block around it.
fn inner_or(inner: Option<bool>, outer: Option<bool>) -> Option<bool>
    ensures { result ≡ inner_or inner outer }
{
    match inner {
        Some(value) => Some(value),
        None => outer,
    }
}

/// Returns whether a setting is made, and is `true`.
fn is_set(value: Option<bool>) -> bool
    ensures { result ≡ is_set value }
{
    match value {
        Some(value) => value,
        None => false,
    }
}

impl Settings {
    /// Returns the settings of a block that sets nothing.
    pub fn none() -> Settings
        ensures { result ≡ no_settings }
    {
        Settings {
            format: None,
            check_names: None,
            inline_signing: None,
            has_policy: None,
            auto_dnssec: None,
        }
    }

    /// Returns whether the server signs the zones of a block with these settings.
    pub fn signs_zones(&self) -> bool
        ensures { result ≡ signs_zones self.now }
    {
        is_set(self.inline_signing) || is_set(self.has_policy) || is_set(self.auto_dnssec)
    }

    /// Returns the settings of a block, and where it has none those of the block around it.
    pub fn within(&self, outer: &Settings) -> Settings
        ensures { result ≡ settled self.now outer.now }
    {
        let format = match self.format {
            Some(format) => Some(format),
            None => outer.format,
        };
        let check_names = match self.check_names {
            Some(severity) => Some(severity),
            None => outer.check_names,
        };
        Settings {
            format,
            check_names,
            inline_signing: inner_or(self.inline_signing, outer.inline_signing),
            has_policy: inner_or(self.has_policy, outer.has_policy),
            auto_dnssec: inner_or(self.auto_dnssec, outer.auto_dnssec),
        }
    }
}

impl ZoneSettings {
    /// Returns the settings of a zone that sets nothing.
    pub fn none() -> ZoneSettings
        ensures { result ≡ no_zone_settings }
    {
        ZoneSettings {
            zone_type: None,
            has_file: false,
            is_in_view: false,
            has_database: false,
            has_template: false,
            settings: Settings::none(),
        }
    }
}

/// Returns what becomes of a primary zone, of which the format of the file is known.
fn primary_outcome(zone: &ZoneSettings, format: Option<FileFormat>) -> ZoneOutcome
    ensures { result ≡ primary_outcome zone.now format }
{
    if zone.has_database {
        return ZoneOutcome::Omitted(OmitReason::Database);
    }
    if !zone.has_file {
        return ZoneOutcome::NoFile;
    }
    match format {
        Some(FileFormat::Raw) | Some(FileFormat::Map) => ZoneOutcome::Omitted(OmitReason::Format),
        Some(FileFormat::Text) | None => ZoneOutcome::Checked,
    }
}

/// Returns what becomes of a zone in blocks with some settings.
///
/// A zone of another view or with a template is omitted. Any other has a type, and a primary zone a
/// file, unless its records are in a database.
pub fn zone_outcome(zone: &ZoneSettings, outer: &Settings) -> ZoneOutcome
    ensures { result ≡ zone_outcome zone.now outer.now }
{
    if zone.is_in_view {
        return ZoneOutcome::Omitted(OmitReason::InView);
    }
    if zone.has_template {
        return ZoneOutcome::Omitted(OmitReason::Template);
    }
    match zone.zone_type {
        Some(ZoneType::Primary) => primary_outcome(zone, zone.settings.within(outer).format),
        Some(ZoneType::Unknown) => ZoneOutcome::Omitted(OmitReason::UnknownType),
        Some(_) => ZoneOutcome::Omitted(OmitReason::OtherType),
        None => ZoneOutcome::NoType,
    }
}
