//! The document that is measured, and the registry that migrates it.
use std::alloc::{AllocError, Global};

/// A registry in which dashboards and visualizations become shareable, with each operation.
pub(crate) const REGISTRY: &str = r#"{"version":"7.12.0","types":[
    {"name":"visualization","kind":"multiple-isolated","shareableAt":"7.12.0"},
    {"name":"dashboard","kind":"multiple-isolated","shareableAt":"7.12.0","migrations":[
        {"version":"7.10.0","ops":[{"op":"rename","from":"panelsJSON","to":"panels_text"},
            {"op":"setDefault","key":"timeRestore","value":false},
            {"op":"mapText","key":"style","table":{"old":"new"}}]},
        {"version":"7.12.0","ops":[{"op":"wrapList","key":"style"},
            {"op":"moveInto","key":"panels_text","into":"panels_of"},
            {"op":"remove","key":"title"}]}]}]}"#;

const PANEL: &str =
    r#",{"gridData":{"h":15,"i":"1","w":24,"x":0,"y":0},"panelIndex":"1","version":"7.11.0"}"#;

const REFERENCE: &str = r#",{"id":"v1","name":"panel_1","type":"visualization"}"#;

/// The stored text of a dashboard that is this many times as large as one of 200 panels, 400 kB of
/// text in one attribute and forty references.
pub(crate) fn dashboard_text(alloc: Global, times: usize) -> Result<String, AllocError> {
    let panels = PANEL.repeat(alloc, 200)?;
    let panels = panels.as_str().repeat(alloc, times)?;
    let text = "0123456789".repeat(alloc, 40_000)?;
    let text = text.as_str().repeat(alloc, times)?;
    let references = REFERENCE.repeat(alloc, 40)?;
    let references = references.as_str().repeat(alloc, times)?;
    [
        r#"{"type":"dashboard","namespace":"a","references":["#,
        references.as_str().trim_start_matches(','),
        r#"],"dashboard":{"style":"old","title":"t","panels":[0"#,
        panels.as_str(),
        r#"],"panelsJSON":""#,
        text.as_str(),
        r#""}}"#,
    ]
    .concat(alloc)
}
