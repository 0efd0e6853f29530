//! The accounts of the file.
ghost use Rattle.std.specs.Prelude.{◌≡◌, ◌↔◌, ◌<◌, All, List, Some, IsTrue, IfOk, IfErr, MatchOption, MatchResult, map, length};
ghost use Rattle.std.specs.List.{list_any};
ghost use Rattle.std.specs.Str.{bytes_eq};
ghost use Rattle.serde_json.specs.View.{view};
ghost use Rattle.dt_machine.specs.Given.{text_of};
ghost use Rattle.dt_machine.specs.Rows.{AccountRow, account_row, account, privs, lists, IsAccountByte, IsAccountName, IsPriv, IsRightAccount};
ghost use Rattle.dt_machine.specs.Found.{IsFoundOfAccount};
ghost use Rattle.dt_machine.specs.Reading.{AllRight, NowhereIfMemory, UnlessMemory};
ghost use Rattle.dt_machine.specs.Sections.{IsMiss, account_rows, texts};

use crate::fault::{FaultNumber, MachineFault};
use crate::found::{FileKey, Found, Part};
use crate::keys::{list_at, text_at, text_of, u32_of, unsigned_at};
use crate::limits::ACCOUNTS_MAX;
use dt_cred::{Account, Privs};
use dt_names::Name;
use serde_json::Value;
use std::alloc::Global;

/// The accounts, or the first that is not right.
pub(crate) fn read_accounts(alloc: Global, rows: &[Value]) -> Result<Vec<Account>, MachineFault>
    ensures right { IfOk result (λ _. AllRight IsRightAccount (account_rows rows.now)) }
    ensures accounts { IfOk result (λ accounts. accounts.items ≡ map account (account_rows rows.now)) }
    ensures memory { IfErr result NowhereIfMemory }
    ensures fault { IfErr result (λ fault.
        UnlessMemory fault (IsMiss FaultNumber.Account IsRightAccount IsFoundOfAccount (account_rows rows.now) fault)) }
{
    let mut accounts = Vec::new(alloc);
    for value in rows {
        match account_of(accounts.as_slice(), value) {
            Ok(account) => accounts.push(account)?,
            // the first row that isn't right decides: no later one is read
            Err(found) => return Err(FaultNumber::Account.at_row(accounts.len() as u32, found)),
        }
    }
    Ok(accounts)
}

/// The account of a row, if it is right after these accounts, or what is wrong with it.
fn account_of(before: &[Account], row: &Value) -> Result<Account, Found>
    ensures { (rows : List AccountRow) → before.now ≡ map account rows → MatchResult result
        (λ found. IsRightAccount rows (account_row (view row.now)) × (found ≡ account (account_row (view row.now))))
        (IsFoundOfAccount (length before.now) rows (account_row (view row.now))) }
{
    // one account more than a machine may have isn't right, whatever its row says
    if before.len() >= ACCOUNTS_MAX {
        return Err(Part::File.has(FileKey::Accounts));
    }
    let this = Part::Account(before.len());
    let name = account_name(text_at(row, "name", "").as_bytes()).ok_or(this.has(FileKey::Name))?;
    // a session is opened by the name of its account, so no two may have one
    if is_taken(before, name.as_bytes()) {
        return Err(this.has(FileKey::Name));
    }
    let uid = u32_of(unsigned_at(row, "uid", None)).ok_or(this.has(FileKey::Uid))?;
    let privs = privs_of(list_at(row, "privs")).ok_or(this.has(FileKey::Privs))?;
    Ok(Account { name, uid, privs })
}

fn is_taken(accounts: &[Account], name: &[u8]) -> bool
    ensures { result ≡ list_any (λ account. bytes_eq account.name name.now) accounts.now }
{
    accounts
        .iter()
        .any(|account| account.name.as_bytes() == name)
}

/// The name of an account: 1 to 31 small letters, digits, underscores and hyphens.
fn account_name(text: &[u8]) -> Option<Name>
    ensures { MatchOption result (IsAccountName text.now → ⊥) (λ name. IsAccountName text.now × (name ≡ text.now)) }
{
    // an account's name is a plain word of step lines and trails
    if text.is_empty() || !text.iter().all(|byte| is_account_byte(*byte)) {
        return None;
    }
    Name::new(text)
}

fn is_account_byte(byte: u8) -> bool
    ensures { IsTrue result ↔ IsAccountByte byte }
{
    matches!(byte, b'a'..=b'z' | b'0'..=b'9' | b'_' | b'-')
}

/// The privileges of a list, if it has no other.
fn privs_of(list: &[Value]) -> Option<Privs>
    ensures { MatchOption result (All IsPriv (texts list.now) → ⊥)
        (λ found. All IsPriv (texts list.now) × (found ≡ privs (texts list.now))) }
{
    // an unknown privilege is refused with its account, and never passed over
    if !are_privs(list) {
        return None;
    }
    Some(Privs {
        dtrace_user: lists(list, "dtrace_user"),
        dtrace_proc: lists(list, "dtrace_proc"),
        dtrace_kernel: lists(list, "dtrace_kernel"),
        proc_owner: lists(list, "proc_owner"),
    })
}

fn are_privs(list: &[Value]) -> bool
    ensures { IsTrue result ↔ All (λ item. IsPriv (text_of (view item))) list.now }
{
    list.iter().all(|item| is_priv(text_of(item)))
}

fn is_priv(text: &str) -> bool
    ensures { IsTrue result ↔ IsPriv text.now }
{
    matches!(
        text,
        "dtrace_user" | "dtrace_proc" | "dtrace_kernel" | "proc_owner"
    )
}

fn lists(list: &[Value], privilege: &str) -> bool
    ensures { result ≡ list_any (λ item. bytes_eq (text_of (view item)) privilege.now) list.now }
{
    list.iter().any(|item| text_of(item) == privilege)
}
