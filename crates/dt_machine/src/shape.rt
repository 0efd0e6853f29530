//! Whether each value of the file is of its kind, and which is the first that isn't.
ghost use Rattle.std.specs.Prelude.{◌≡◌, true, false, MatchOption, map, codes};
ghost use Rattle.std.specs.List.{list_all};
ghost use Rattle.serde_json.specs.View.{view};
ghost use Rattle.dt_machine.specs.Given.{is_integer, is_text, is_list_of, has_field, may_have, items_at};
ghost use Rattle.dt_machine.specs.Found.{of, IsFirstFound, IsFoundOfList, IsFoundOfShape, IsMisshapenAccount, IsMisshapenProcess, IsMisshapenProbe, IsMisshapenFiring, IsMisshapenScript, IsMisshapenFile};
ghost use Rattle.dt_machine.specs.Reading.{Nowhere};
ghost use Rattle.dt_machine.specs.Shape.{is_account, is_process, is_numbers, is_firing, is_machine};

use crate::fault::{FaultNumber, MachineFault};
use crate::found::{FileKey, Found, Part};
use crate::keys::{items, items_at};
use serde_json::Value;

/// The fault of a file that is no object, that lacks a key, or of which a value is of the wrong kind.
pub(crate) fn shape_fault(file: &Value) -> Option<MachineFault>
    ensures { MatchOption result (is_machine (view file.now) ≡ true)
        (λ fault. (fault.number ≡ FaultNumber.Shape) × (is_machine (view file.now) ≡ false)
        × Nowhere fault.cpu fault.row × IsFoundOfShape (view file.now) fault.found) }
{
    if !file.is_object() {
        return Some(FaultNumber::Shape.nowhere());
    }
    match first_of_file(file) {
        Some(found) => Some(FaultNumber::Shape.at_row(0, found)),
        None => None,
    }
}

/// What is wrong first in the shape of a file, key by key.
fn first_of_file(file: &Value) -> Option<Found>
    ensures { MatchOption result (is_machine (view file.now) ≡ true) (IsMisshapenFile (view file.now)) }
{
    if !has_integer(file, "cpus") {
        return Some(Part::File.has(FileKey::Cpus));
    }
    if let Some(found) = first_of_accounts(file) {
        return Some(found);
    }
    if let Some(found) = first_of_processes(file) {
        return Some(found);
    }
    if let Some(found) = first_of_probes(file) {
        return Some(found);
    }
    first_of_scripts(file)
}

fn first_of_accounts(file: &Value) -> Option<Found>
    ensures { MatchOption result (has_field (codes "accounts") (is_list_of is_account) (view file.now) ≡ true)
        (IsFoundOfList (of Part.File FileKey.Accounts) is_account IsMisshapenAccount (items_at (codes "accounts") (view file.now))) }
{
    match items_at(file, "accounts") {
        Some(rows) => first_account(rows),
        None => Some(Part::File.has(FileKey::Accounts)),
    }
}

fn first_account(rows: &[Value]) -> Option<Found>
    ensures { MatchOption result (list_all is_account (map view rows.now) ≡ true)
        (IsFirstFound is_account IsMisshapenAccount (map view rows.now)) }
{
    for (at, row) in rows.iter().enumerate() {
        // the first row that hasn't its shape is the one that is told
        if let Some(found) = of_account(at, row) {
            return Some(found);
        }
    }
    None
}

fn of_account(at: usize, row: &Value) -> Option<Found>
    ensures { MatchOption result (is_account (view row.now) ≡ true)
        (λ found. (is_account (view row.now) ≡ false) × IsMisshapenAccount at (view row.now) found) }
{
    let this = Part::Account(at);
    if !has_text(row, "name") {
        return Some(this.has(FileKey::Name));
    }
    if !has_integer(row, "uid") {
        return Some(this.has(FileKey::Uid));
    }
    if !has_texts(row, "privs") {
        return Some(this.has(FileKey::Privs));
    }
    None
}

fn first_of_processes(file: &Value) -> Option<Found>
    ensures { MatchOption result (has_field (codes "processes") (is_list_of is_process) (view file.now) ≡ true)
        (IsFoundOfList (of Part.File FileKey.Processes) is_process IsMisshapenProcess (items_at (codes "processes") (view file.now))) }
{
    match items_at(file, "processes") {
        Some(rows) => first_process(rows),
        None => Some(Part::File.has(FileKey::Processes)),
    }
}

fn first_process(rows: &[Value]) -> Option<Found>
    ensures { MatchOption result (list_all is_process (map view rows.now) ≡ true)
        (IsFirstFound is_process IsMisshapenProcess (map view rows.now)) }
{
    for (at, row) in rows.iter().enumerate() {
        // the first row that hasn't its shape is the one that is told
        if let Some(found) = of_process(at, row) {
            return Some(found);
        }
    }
    None
}

fn of_process(at: usize, row: &Value) -> Option<Found>
    ensures { MatchOption result (is_process (view row.now) ≡ true)
        (λ found. (is_process (view row.now) ≡ false) × IsMisshapenProcess at (view row.now) found) }
{
    let this = Part::Process(at);
    if !has_integer(row, "pid") {
        return Some(this.has(FileKey::Pid));
    }
    if !has_integer(row, "uid") {
        return Some(this.has(FileKey::Uid));
    }
    if !has_text(row, "execname") {
        return Some(this.has(FileKey::Execname));
    }
    None
}

fn first_of_probes(file: &Value) -> Option<Found>
    ensures { MatchOption result (has_field (codes "probes") (is_list_of is_text) (view file.now) ≡ true)
        (IsFoundOfList (of Part.File FileKey.Probes) is_text IsMisshapenProbe (items_at (codes "probes") (view file.now))) }
{
    match items_at(file, "probes") {
        Some(rows) => first_probe(rows),
        None => Some(Part::File.has(FileKey::Probes)),
    }
}

fn first_probe(rows: &[Value]) -> Option<Found>
    ensures { MatchOption result (list_all is_text (map view rows.now) ≡ true)
        (IsFirstFound is_text IsMisshapenProbe (map view rows.now)) }
{
    for (at, row) in rows.iter().enumerate() {
        // the first row that hasn't its shape is the one that is told
        if let Some(found) = of_probe(at, row) {
            return Some(found);
        }
    }
    None
}

fn of_probe(at: usize, row: &Value) -> Option<Found>
    ensures { MatchOption result (is_text (view row.now) ≡ true)
        (λ found. (is_text (view row.now) ≡ false) × IsMisshapenProbe at (view row.now) found) }
{
    let this = Part::Probe(at);
    if !row.is_string() {
        return Some(this.has(FileKey::Text));
    }
    None
}

fn first_of_scripts(file: &Value) -> Option<Found>
    ensures { MatchOption result (has_field (codes "scripts") (is_list_of (is_list_of is_firing)) (view file.now) ≡ true)
        (IsFoundOfList (of Part.File FileKey.Scripts) (is_list_of is_firing) IsMisshapenScript (items_at (codes "scripts") (view file.now))) }
{
    match items_at(file, "scripts") {
        Some(rows) => first_script(rows),
        None => Some(Part::File.has(FileKey::Scripts)),
    }
}

fn first_script(rows: &[Value]) -> Option<Found>
    ensures { MatchOption result (list_all (is_list_of is_firing) (map view rows.now) ≡ true)
        (IsFirstFound (is_list_of is_firing) IsMisshapenScript (map view rows.now)) }
{
    for (at, row) in rows.iter().enumerate() {
        // the first row that hasn't its shape is the one that is told
        if let Some(found) = of_script(at, row) {
            return Some(found);
        }
    }
    None
}

fn of_script(cpu: usize, script: &Value) -> Option<Found>
    ensures { MatchOption result (is_list_of is_firing (view script.now) ≡ true)
        (λ found. (is_list_of is_firing (view script.now) ≡ false) × IsMisshapenScript cpu (view script.now) found) }
{
    match items(script) {
        Some(rows) => first_firing(cpu, rows),
        None => Some(Part::Script(cpu).has(FileKey::Scripts)),
    }
}

fn first_firing(cpu: usize, rows: &[Value]) -> Option<Found>
    ensures { MatchOption result (list_all is_firing (map view rows.now) ≡ true)
        (IsFirstFound is_firing (IsMisshapenFiring cpu) (map view rows.now)) }
{
    for (at, row) in rows.iter().enumerate() {
        // the first row that hasn't its shape is the one that is told
        if let Some(found) = of_firing(cpu, at, row) {
            return Some(found);
        }
    }
    None
}

fn of_firing(cpu: usize, at: usize, row: &Value) -> Option<Found>
    ensures { MatchOption result (is_firing (view row.now) ≡ true)
        (λ found. (is_firing (view row.now) ≡ false) × IsMisshapenFiring cpu at (view row.now) found) }
{
    let this = Part::Firing { cpu, row: at };
    if !has_integer(row, "probe") {
        return Some(this.has(FileKey::Probe));
    }
    if !has_integer(row, "pid") {
        return Some(this.has(FileKey::Pid));
    }
    if !may_have_integer(row, "tid") {
        return Some(this.has(FileKey::Tid));
    }
    if !may_have_text(row, "mode") {
        return Some(this.has(FileKey::Mode));
    }
    if !may_have_integer(row, "timestamp") {
        return Some(this.has(FileKey::Timestamp));
    }
    if !may_have_numbers(row, "args") {
        return Some(this.has(FileKey::Args));
    }
    if !may_have_numbers(row, "kstack") {
        return Some(this.has(FileKey::Kstack));
    }
    if !may_have_numbers(row, "ustack") {
        return Some(this.has(FileKey::Ustack));
    }
    None
}

fn has_texts(value: &Value, key: &str) -> bool
    ensures { result ≡ has_field key.now (is_list_of is_text) (view value.now) }
{
    match value.get(key) {
        Some(found) => are_texts(found),
        None => false,
    }
}

fn has_integer(value: &Value, key: &str) -> bool
    ensures { result ≡ has_field key.now is_integer (view value.now) }
{
    match value.get(key) {
        Some(found) => is_integer(found),
        None => false,
    }
}

fn has_text(value: &Value, key: &str) -> bool
    ensures { result ≡ has_field key.now is_text (view value.now) }
{
    match value.get(key) {
        Some(found) => found.is_string(),
        None => false,
    }
}

fn may_have_integer(value: &Value, key: &str) -> bool
    ensures { result ≡ may_have key.now is_integer (view value.now) }
{
    match value.get(key) {
        Some(found) => is_integer(found),
        None => true,
    }
}

fn may_have_text(value: &Value, key: &str) -> bool
    ensures { result ≡ may_have key.now is_text (view value.now) }
{
    match value.get(key) {
        Some(found) => found.is_string(),
        None => true,
    }
}

fn may_have_numbers(value: &Value, key: &str) -> bool
    ensures { result ≡ may_have key.now is_numbers (view value.now) }
{
    match value.get(key) {
        Some(found) => are_numbers(found),
        None => true,
    }
}

fn are_numbers(value: &Value) -> bool
    ensures { result ≡ is_numbers (view value.now) }
{
    match items(value) {
        Some(list) => all_integers(list),
        None => false,
    }
}

fn all_integers(list: &[Value]) -> bool
    ensures { result ≡ list_all (λ item. is_integer (view item)) list.now }
{
    list.iter().all(|item| is_integer(item))
}

fn are_texts(value: &Value) -> bool
    ensures { result ≡ is_list_of is_text (view value.now) }
{
    match items(value) {
        Some(list) => all_texts(list),
        None => false,
    }
}

fn all_texts(list: &[Value]) -> bool
    ensures { result ≡ list_all (λ item. is_text (view item)) list.now }
{
    list.iter().all(|item| item.is_string())
}

/// Whether a value is held as a signed or an unsigned number of 64 bits.
fn is_integer(value: &Value) -> bool
    ensures { result ≡ is_integer (view value.now) }
{
    match value.as_number() {
        Some(number) => number.as_i128().is_some(),
        None => false,
    }
}
