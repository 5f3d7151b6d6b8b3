//! The files of a case, where the program runs.

use crate::bytes::bytes_of;
use crate::case::{Case, RULES};
use serde_json::Value;
use std::alloc::Global;
use std::fs;
use std::rt::Files;

/// The folder of the templates.
const FOLDER: &str = "T";

/// Lays a file of the bytes that a case gives.
fn lay_file<Rt: Files>(rt: &Rt, alloc: Global, path: &str, text: &Value) -> anyhow::Result<()> {
    let bytes = bytes_of(alloc, Some(text))?;
    fs::write(rt, path, bytes.as_slice())?;
    Ok(())
}

/// Lays a template in its folder.
fn lay_template<Rt: Files>(rt: &Rt, alloc: Global, id: &str, text: &Value) -> anyhow::Result<()> {
    let path = format!(in alloc; "{FOLDER}/{id}.template.txt")?;
    lay_file(rt, alloc, path.as_str(), text)
}

/// Lays templates in their folder.
fn lay_templates<Rt: Files>(rt: &Rt, alloc: Global, templates: &Value) -> anyhow::Result<()> {
    let Some(members) = templates.as_object() else {
        return Ok(());
    };
    for (id, text) in members {
        lay_template(rt, alloc, id, text)?;
    }
    Ok(())
}

/// Lays `count` templates of one letter each.
fn lay_numbered<Rt: Files>(rt: &Rt, alloc: Global, count: u64) -> anyhow::Result<()> {
    for k in 0..count {
        let path = format!(in alloc; "{FOLDER}/K{k}.template.txt")?;
        fs::write(rt, path.as_str(), "k")?;
    }
    Ok(())
}

/// Lays files beside the folder.
fn lay_files<Rt: Files>(rt: &Rt, alloc: Global, files: &Value) -> anyhow::Result<()> {
    let Some(members) = files.as_object() else {
        return Ok(());
    };
    for (name, text) in members {
        lay_file(rt, alloc, name, text)?;
    }
    Ok(())
}

/// Lays the files of a case, and line rules if there are some.
pub fn lay<Rt: Files>(
    rt: &Rt,
    alloc: Global,
    case: &Case<'_>,
    rules: Option<&str>,
) -> anyhow::Result<()> {
    if let Some(templates) = case.templates {
        fs::create_dir(rt, FOLDER)?;
        lay_templates(rt, alloc, templates)?;
        lay_numbered(rt, alloc, case.numbered)?;
    }
    if let Some(files) = case.files {
        lay_files(rt, alloc, files)?;
    }
    if let Some(rules) = rules {
        fs::write(rt, RULES, rules)?;
    }
    Ok(())
}

/// Takes away files beside the folder.
fn clear_files<Rt: Files>(rt: &Rt, files: &Value) -> anyhow::Result<()> {
    let Some(members) = files.as_object() else {
        return Ok(());
    };
    for name in members.keys() {
        fs::remove_file(rt, name.as_str())?;
    }
    Ok(())
}

/// Takes away the files of a case, and line rules if there are some.
pub fn clear<Rt: Files + AllocGlobal>(
    rt: &Rt,
    case: &Case<'_>,
    has_rules: bool,
) -> anyhow::Result<()> {
    if case.templates.is_some() {
        fs::remove_dir_all(rt, FOLDER)?;
    }
    if let Some(files) = case.files {
        clear_files(rt, files)?;
    }
    if has_rules {
        fs::remove_file(rt, RULES)?;
    }
    Ok(())
}
