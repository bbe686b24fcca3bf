ghost use Rattle.std.specs.Prelude.{◌≡◌, ◌<◌, ◌≤◌, Some, [], ◌∷◌, ◌++◌, ◌-◌, length, min, vec_capacity, OnOk, OnErr, IsOk, if◌then◌else◌};
ghost use Rattle.std.specs.HashMap.{get, spare};
ghost use Rattle.cns_ids.specs.Holding.{holding_eq};
ghost use Rattle.cns_ids.specs.declared.holding.Holding.{Holding};
ghost use Rattle.cns_covers.specs.Settings.{newest_of};

use cns_ids::{Cusip, Holding, MemberNo};
use std::alloc::{AllocError, Global};
use std::collections::HashMap;
use std::marker::Model;

/// A setting of a member in an issue.
pub trait Setting: Copy {
    /// What is set.
    type Value: Copy + Drop;

    /// The member and issue that it is of.
    ghost place: { Self → Holding };

    /// What it sets.
    ghost says: { Self → Self.Value };

    /// The member and issue that it is of.
    fn holding(&self) -> Holding
        ensures { result ≡ place self.now };

    /// What it sets.
    fn value(&self) -> Self::Value
        ensures { result ≡ says self.now };
}

/// The settings of all members and issues, each of which stands until another one of its member and
/// issue is made. (This project's own rule.)
///
/// Contracts see the settings, the newest first, and for how many more there is room.
#[derive(Drop)]
pub struct Settings<S: Setting> {
    // In the order in which they were made.
    settings: Vec<S>,
    // What the newest one of each member and issue says.
    latest: HashMap<Holding, S::Value>,
}

impl<S: Setting> Model for Settings<S> {
    ghost use Rattle.cns_ids.specs.Holding.{holding_eq};
    ghost use Rattle.std.specs.Prelude.{◌-◌, length, min, reverse, vec_capacity};
    ghost use Rattle.std.specs.HashMap.{get, spare};
    ghost use Rattle.cns_covers.specs.Settings.{AreLatest, SettingRoom};

    ghost Value = { SettingRoom S };

    ghost view = { λ s. record {
      settings = reverse s.settings.items;
      room = min (vec_capacity s.settings - length s.settings.items) (spare s.latest);
    } };

    ghost invariant = { λ s. AreLatest S.place S.says (reverse s.settings.items) (get holding_eq s.latest) };
}

impl<S: Setting> Settings<S> {
    /// No settings, and room for none.
    pub fn new(alloc: Global) -> Settings<S>
        ensures settings { result.settings ≡ [] }
        ensures room { result.room ≡ 0 }
    {
        Settings {
            settings: Vec::new(alloc),
            latest: HashMap::new(alloc),
        }
    }

    // Makes a setting, in place of those before.
    pub(crate) fn make(&mut self, setting: S) -> Result<(), AllocError>
        ensures ok { OnOk result (self.new.settings ≡ setting ∷ self.old.settings) }
        ensures err { OnErr result (self.new.settings ≡ self.old.settings) }
        ensures room { 0 < self.old.room → IsOk result }
    {
        make_room(&mut self.settings, &mut self.latest)?;
        put(&mut self.latest, &setting);
        write(&mut self.settings, setting);
        Ok(())
    }

    /// Takes the memory that `set` needs: as the next change, it then succeeds.
    pub fn set_room(
        &mut self,
        _member: MemberNo,
        _issue: Cusip,
        _value: S::Value,
    ) -> Result<(), AllocError>
        ensures same { self.new.settings ≡ self.old.settings }
        ensures room { OnOk result (0 < self.new.room) }
        ensures err { OnErr result (self.old.room ≡ 0) }
        ensures left { self.old.room ≤ self.new.room }
    {
        make_room(&mut self.settings, &mut self.latest)
    }

    // What the newest setting of a member and issue says.
    pub(crate) fn newest(&self, member: MemberNo, issue: Cusip) -> Option<S::Value>
        ensures { result ≡ newest_of S.place S.says self.now.settings member issue }
    {
        self.latest.get(&Holding { issue, member }).copied()
    }
}

// Takes the memory that one more setting needs.
fn make_room<S: Setting>(
    settings: &mut Vec<S>,
    latest: &mut HashMap<Holding, S::Value>,
) -> Result<(), AllocError>
    ensures settings { settings.new.items ≡ settings.old.items }
    ensures latest { (k : Holding) → get holding_eq latest.new k ≡ get holding_eq latest.old k }
    ensures settings_room { OnOk result (length settings.new.items < vec_capacity settings.new) }
    ensures latest_room { OnOk result (0 < spare latest.new) }
    ensures none { OnErr result (min (vec_capacity settings.old - length settings.old.items) (spare latest.old) ≡ 0) }
    ensures left { min (vec_capacity settings.old - length settings.old.items) (spare latest.old)
        ≤ min (vec_capacity settings.new - length settings.new.items) (spare latest.new) }
{
    settings.reserve(1)?;
    latest.reserve(1)
}

// Puts what a setting says where its member and issue are looked up, for which there is room.
fn put<S: Setting>(latest: &mut HashMap<Holding, S::Value>, setting: &S)
    requires { 0 < spare latest.old }
    ensures { (k : Holding) → get holding_eq latest.new k
        ≡ (if holding_eq (S.place setting.now) k then Some (S.says setting.now) else get holding_eq latest.old k) }
{
    let Ok(_) = latest.insert(setting.holding(), setting.value()) else {
        unreachable!()
    };
}

// Writes a setting, for which there is room.
fn write<S: Setting>(settings: &mut Vec<S>, setting: S)
    requires { length settings.old.items < vec_capacity settings.old }
    ensures { settings.new.items ≡ settings.old.items ++ setting ∷ [] }
{
    let Ok(()) = settings.push(setting) else {
        unreachable!()
    };
}
