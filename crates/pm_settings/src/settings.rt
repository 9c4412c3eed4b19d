//! The settings of a session.
ghost use Rattle.std.specs.{Prelude.{◌≡◌, ◌≤◌, ◌*◌, None, Some, IfErr, IfOk, IfSome, OnErr, OnOk, sum_by}, Option.option_copied};
ghost use Rattle.pm_settings.specs.{Answers.{IsRefusalOf, NamesSetting, after, answer_of, error_of, refusal_of, set_answer, text_of, told_by, unknown_in}, Told.{bytes_of, nothing_told, place_of, told_at, value_of, with_told}, Names.{max_setting_bytes, setting_named}};

use crate::answer::{Answer, Cell, Refusal};
use crate::setting::Setting;
use crate::statement::Statement;
use pm_rows::Text;
use std::alloc::{AllocError, Global};
use std::marker::Model;

/// The settings of a session. Contracts see what was told of those that are kept as they are told, by their places, and from this the
/// value of each setting follows. They keep 1,792 bytes of text at most.
#[derive(Debug, Drop)]
pub struct Settings {
    told: [Option<Text>; 7],
}

impl Model for Settings {
    ghost use Rattle.pm_settings.specs.Told.{IsTold, Told};

    ghost Value = { Told };

    ghost view = { λ settings. settings.told };

    ghost invariant = { λ settings. IsTold settings.told };
}

impl Settings {
    /// Settings that all have their own values. They take no memory.
    pub fn new() -> Settings
        ensures { result ≡ nothing_told }
    {
        Settings {
            told: [None, None, None, None, None, None, None],
        }
    }

    /// The value of a setting.
    pub fn show(&self, setting: Setting) -> &str
        ensures { result.now ≡ value_of self.now setting }
    {
        match self.told_of(setting) {
            Some(value) => value.as_str(),
            None => setting.own_value(),
        }
    }

    // What was told of a setting.
    fn told_of(&self, setting: Setting) -> Option<&Text>
        ensures { option_copied result ≡ told_at self.now (place_of setting) }
    {
        let place = setting.place()?;
        self.told[place].as_ref()
    }

    /// Gives a setting this value, where it takes it; where it isn't kept as it is told that changes nothing. It fails for want of memory
    /// only where there are as many copies of the value as can be counted.
    pub fn set(&mut self, setting: Setting, value: &Text) -> Result<(), Refusal>
        ensures taken { OnOk result (refusal_of setting (Some value.now) ≡ None) }
        ensures told { OnOk result (self.new ≡ with_told self.old setting (Some value.now)) }
        ensures refused { IfErr result (IsRefusalOf (refusal_of setting (Some value.now))) }
        ensures same { OnErr result (self.new ≡ self.old) }
    {
        if setting.is_fixed() {
            return Err(Refusal::Fixed { setting });
        }
        let value = value.copy()?;
        if !setting.fits(value.as_str()) {
            return Err(Refusal::Value { setting, value });
        }
        self.tell(setting, Some(value));
        Ok(())
    }

    /// Gives a setting its own value again.
    pub fn reset(&mut self, setting: Setting) -> Result<(), Refusal>
        ensures taken { OnOk result (refusal_of setting None ≡ None) }
        ensures told { OnOk result (self.new ≡ with_told self.old setting None) }
        ensures refused { IfErr result (λ refusal. refusal_of setting None ≡ Some refusal) }
        ensures same { OnErr result (self.new ≡ self.old) }
    {
        if setting.is_fixed() {
            return Err(Refusal::Fixed { setting });
        }
        self.tell(setting, None);
        Ok(())
    }

    // Keeps what is told of a setting, where its value is kept as it is told.
    fn tell(&mut self, setting: Setting, value: Option<Text>)
        requires { IfSome (place_of setting) (λ _. bytes_of value ≤ max_setting_bytes) }
        ensures { self.new ≡ with_told self.old setting value }
    {
        if let Some(place) = setting.place() {
            self.told[place] = value;
        }
    }

    /// Gives all settings their own values again.
    pub fn reset_all(&mut self)
        ensures { self.new ≡ nothing_told }
    {
        *self = Settings::new();
    }

    /// Answers a statement. Only one that names a setting may fail for want of memory.
    pub fn answer(&mut self, statement: &Statement) -> Result<Answer, Refusal>
        ensures answer { IfOk result (λ answer. answer_of statement.now ≡ Ok answer) }
        ensures after { OnOk result (self.new ≡ after self.old statement.now) }
        ensures refused { IfErr result (IsRefusalOf (error_of (answer_of statement.now))) }
        ensures short { result ≡ Err Refusal.NoMemory → NamesSetting statement.now }
        ensures same { OnErr result (self.new ≡ self.old) }
    {
        match statement {
            Statement::Set { name, value } => self.set_named(name, value),
            Statement::Transaction { is_read_only } => {
                if *is_read_only {
                    Err(Refusal::ReadOnly)
                } else {
                    Ok(Answer::Set)
                }
            }
            Statement::Reset { name } => {
                let setting = setting_named(name)?;
                self.reset(setting)?;
                Ok(Answer::Reset)
            }
            Statement::ResetAll => {
                self.reset_all();
                Ok(Answer::Reset)
            }
            Statement::Show { name } => {
                let setting = setting_named(name)?;
                Ok(Answer::Row(Cell::Setting(setting)))
            }
            Statement::DiscardAll => {
                self.reset_all();
                Ok(Answer::DiscardAll)
            }
            Statement::CloseAll => Ok(Answer::CloseAll),
            Statement::UnlistenAll => Ok(Answer::UnlistenAll),
            Statement::UnlockAll => Ok(Answer::Row(Cell::Unlocked)),
            Statement::Version => Ok(Answer::Row(Cell::Version)),
            Statement::Number { value } => Ok(Answer::Row(Cell::Number(*value))),
        }
    }

    // SET of the setting of this name.
    fn set_named(&mut self, name: &Text, value: &Option<Text>) -> Result<Answer, Refusal>
        ensures answer { IfOk result (λ answer. set_answer name.now value.now ≡ Ok answer) }
        ensures after { OnOk result
            (self.new ≡ told_by self.old (setting_named name.now) value.now) }
        ensures refused { IfErr result (IsRefusalOf (error_of (set_answer name.now value.now))) }
        ensures same { OnErr result (self.new ≡ self.old) }
    {
        let setting = setting_named(name)?;
        match value {
            Some(value) => self.set(setting, value)?,
            None => self.reset(setting)?,
        }
        Ok(Answer::Set)
    }

    /// The text of a value that a row shows.
    pub fn text(&self, alloc: Global, cell: Cell) -> Result<Text, AllocError>
        ensures { IfOk result (λ text. text ≡ text_of self.now cell) }
    {
        match cell {
            Cell::Setting(setting) => Text::of(alloc, self.show(setting)),
            Cell::Unlocked => Text::of(alloc, ""),
            Cell::Version => Text::of(alloc, "PostgreSQL 16.0 (Wonthik)"),
            Cell::Number(number) => {
                let text = format!(in alloc; "{number}")?;
                Text::of(alloc, text.as_str())
            }
        }
    }

    /// The law that all that was told has 1,792 bytes at most.
    pub fn are_small(&self)
        ensures { sum_by bytes_of self.now ≤ 7 * max_setting_bytes }
    {
        let _told = &self.told;
    }
}

// The setting of a name.
fn setting_named(name: &Text) -> Result<Setting, Refusal>
    ensures found { IfOk result (λ setting. setting_named name.now ≡ Some setting) }
    ensures unknown { IfErr result (IsRefusalOf (unknown_in name.now (setting_named name.now))) }
{
    match Setting::named(name.as_str()) {
        Some(setting) => Ok(setting),
        None => Err(Refusal::Unknown { name: name.copy()? }),
    }
}
