//! The style of a page: light or dark, as the reader prefers.

/// The lines of the style sheet.
pub(crate) const STYLE: [&str; 8] = [
    ":root{color-scheme:light dark;--fg:#1b1b1b;--bg:#fff;--line:#767676;--soft:#f1f1ee;\
     --mark:#8a4b00}",
    "@media(prefers-color-scheme:dark){:root{--fg:#ececec;--bg:#161616;--line:#8c8c8c;\
     --soft:#242424;--mark:#ffbe6b}}",
    "body{font:16px/1.5 system-ui,sans-serif;color:var(--fg);background:var(--bg);\
     margin:2rem auto;max-width:70rem;padding:0 1rem}",
    "table{border-collapse:collapse;margin:.5rem 0 1.5rem}caption{text-align:left;\
     font-weight:600}",
    "th,td{border:1px solid var(--line);padding:.2rem .6rem;text-align:left;\
     vertical-align:top}td.n{text-align:right}",
    "th{background:var(--soft)}.u{color:var(--mark);font-style:italic}code{\
     background:var(--soft);padding:0 .25rem}",
    ".wide{overflow-x:auto}svg text{font:14px monospace;fill:var(--fg)}.rel,.map{\
     fill:var(--soft);stroke:var(--line)}",
    ".edge{fill:none;stroke:var(--line)}.open{stroke-dasharray:5 3}.tip{fill:var(--line)}",
];
