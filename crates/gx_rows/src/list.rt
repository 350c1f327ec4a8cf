ghost use Rattle.std.specs.Prelude.{◌≡◌, ◌<◌, ◌≤◌, ◌+◌, ◌++◌, ◌∷◌, [], length, take, drop, IfOk, OnOk, OnErr, ◌==◌};
ghost use Rattle.std.specs.List.{list_any};
ghost use Rattle.std.specs.Vec.{vec_capacity};
ghost use Rattle.gx_rows.specs.VersionLists.{listed};

use crate::version::Version;
use gx_ids::{Mem, Table};
use std::alloc::Global;
use std::marker::Model;
use std::{mem, slice};

/// Versions, most often one.
#[derive(Drop)]
pub(crate) enum Few {
    Empty,
    One(Version),
    Many(Vec<Version>),
}

/// A row's versions in the order in which they were added. One alone, as of most rows, takes no memory.
#[derive(Drop)]
pub struct VersionList {
    versions: Few,
}

impl Model for VersionList {
    ghost use Rattle.std.specs.Prelude.{List};
    ghost use Rattle.gx_rows.specs.declared.version.Version.{Version};
    ghost use Rattle.gx_rows.specs.VersionLists.{listed};

    ghost Value = { List Version };

    ghost view = { λ a. listed a.versions };
}

impl VersionList {
    /// One version.
    pub(crate) fn of(version: Version) -> VersionList
        ensures { result ≡ version ∷ [] }
    {
        VersionList {
            versions: Few::One(version),
        }
    }

    /// The versions, in order.
    pub fn as_slice(&self) -> &[Version]
        ensures { result.now ≡ self.now }
    {
        sliced(&self.versions)
    }

    /// Whether a version of them is in the table.
    pub fn is_of(&self, table: Table) -> bool
        ensures { result ≡ list_any (λ v. v.table.0 == table.0) self.now }
    {
        is_any_of(self.as_slice(), table)
    }

    /// How many there are.
    pub fn len(&self) -> usize
        ensures { result ≡ length self.now }
    {
        self.as_slice().len()
    }

    /// Adds a version at the end.
    pub(crate) fn push(&mut self, alloc: Global, version: Version) -> Mem<()>
        ensures ok { OnOk result (self.new ≡ self.old ++ version ∷ []) }
        ensures err { OnErr result (self.new ≡ self.old) }
    {
        push_to(alloc, &mut self.versions, version)
    }

    /// Takes out the version at a place.
    pub fn remove(&mut self, place: usize) -> Version
        requires { place < length self.old }
        ensures { self.new ≡ take place self.old ++ drop (place + 1) self.old }
    {
        remove_from(&mut self.versions, place)
    }
}

fn is_any_of(list: &[Version], table: Table) -> bool
    ensures { result ≡ list_any (λ v. v.table.0 == table.0) list.now }
{
    list.iter().any(|version| version.table == table)
}

fn sliced(versions: &Few) -> &[Version]
    ensures { result.now ≡ listed versions.now }
{
    match versions {
        Few::Empty => &[],
        Few::One(version) => slice::from_ref(version),
        Few::Many(versions) => versions.as_slice(),
    }
}

fn push_to(alloc: Global, versions: &mut Few, version: Version) -> Mem<()>
    ensures ok { OnOk result (listed versions.new ≡ listed versions.old ++ version ∷ []) }
    ensures err { OnErr result (listed versions.new ≡ listed versions.old) }
{
    match mem::replace(versions, Few::Empty) {
        Few::Empty => {
            *versions = Few::One(version);
            Ok(())
        }
        Few::One(first) => put_two(alloc, versions, first, version),
        Few::Many(list) => put_longer(versions, list, version),
    }
}

// Puts two versions in, the first alone where there is no memory.
fn put_two(alloc: Global, versions: &mut Few, first: Version, second: Version) -> Mem<()>
    ensures ok { OnOk result (listed versions.new ≡ first ∷ second ∷ []) }
    ensures err { OnErr result (listed versions.new ≡ first ∷ []) }
{
    match pair_room(alloc) {
        Ok(room) => {
            *versions = Few::Many(paired(room, first, second));
            Ok(())
        }
        Err(fault) => {
            drop(second);
            *versions = Few::One(first);
            Err(fault)
        }
    }
}

// A list with room for two.
fn pair_room(alloc: Global) -> Mem<Vec<Version>>
    ensures { IfOk result (λ room. (room.items ≡ []) × (2 ≤ vec_capacity room)) }
{
    let room = Vec::with_capacity(alloc, 2)?;
    Ok(room)
}

fn paired(room: Vec<Version>, first: Version, second: Version) -> Vec<Version>
    requires { (room.items ≡ []) × (2 ≤ vec_capacity room) }
    ensures { result.items ≡ first ∷ second ∷ [] }
{
    let mut list = room;
    list.push_reserved(first);
    list.push_reserved(second);
    list
}

// Puts a list in with one more version, the list alone where there is no memory.
fn put_longer(versions: &mut Few, list: Vec<Version>, version: Version) -> Mem<()>
    ensures ok { OnOk result (listed versions.new ≡ list.items ++ version ∷ []) }
    ensures err { OnErr result (listed versions.new ≡ list.items) }
{
    let mut list = list;
    let pushed = list.push(version);
    *versions = Few::Many(list);
    pushed?;
    Ok(())
}

fn remove_from(versions: &mut Few, place: usize) -> Version
    requires { place < length (listed versions.old) }
    ensures { listed versions.new ≡ take place (listed versions.old) ++ drop (place + 1) (listed versions.old) }
{
    match mem::replace(versions, Few::Empty) {
        Few::One(version) => version,
        Few::Many(list) => {
            let mut list = list;
            let version = list.remove(place);
            *versions = Few::Many(list);
            version
        }
        Few::Empty => unreachable!(),
    }
}
