//! The style of pages.

/// The style, for light, dark and paper. It has no quotes and no backslashes.
pub const STYLE: &str = "
:root { color-scheme: light dark; --ground: #fff; --text: #1b1f24; --line: #c8cdd3; --head: #f2f4f6; --edge: #6e7781;
  --ok: #e3f4e6; --breaks: #ffd9d4; --none: #fff1c7; --unread: #e4e4ea; --focus: #0a58ca; }
@media (prefers-color-scheme: dark) {
  :root { --ground: #14171b; --text: #e4e7ea; --line: #3c434b; --head: #20252b; --edge: #8b949e;
    --ok: #17361f; --breaks: #5c1d19; --none: #4b3c0c; --unread: #33333d; --focus: #78b4ff; }
}
body { background: var(--ground); color: var(--text); font: 15px/1.45 system-ui, sans-serif; margin: 1rem; }
h1 { font-size: 1.3rem; overflow-wrap: anywhere; }
h2 { font-size: 1.05rem; }
dl { display: grid; grid-template-columns: max-content 1fr; gap: .15rem 1rem; }
dt { font-weight: 600; }
dd { margin: 0; overflow-wrap: anywhere; }
section { overflow-x: auto; }
section > table { border: 0 solid var(--line); border-width: 1px 0 0 1px; }
#filters { display: flex; flex-wrap: wrap; gap: .5rem 1rem; align-items: end; margin: 1rem 0; }
#filters label { display: grid; gap: .15rem; min-width: 0; max-width: 100%; }
select, input { font: inherit; color: inherit; background: var(--ground); border: 1px solid var(--edge); padding: .2rem .4rem; min-width: 0; max-width: min(24rem, 100%); }
#frame { max-height: 70vh; overflow: auto; border: 1px solid var(--line); width: fit-content; max-width: 100%; }
table { border-collapse: separate; border-spacing: 0; }
th, td { padding: .15rem .6rem; border-right: 1px solid var(--line); border-bottom: 1px solid var(--line); text-align: left; white-space: nowrap; }
th { background: var(--head); font-weight: 600; }
thead th { position: sticky; top: 0; z-index: 1; }
tbody th { font-weight: 400; }
#matrix td { cursor: pointer; }
.number { text-align: right; }
.o { background: var(--ok); }
.b { background: var(--breaks); font-weight: 600; }
.n { background: var(--none); }
.u { background: var(--unread); font-style: italic; }
:focus-visible { outline: 3px solid var(--focus); outline-offset: -3px; }
#cell, #reasons { max-width: 70rem; overflow-wrap: anywhere; }
#cell { border-left: 4px solid var(--line); padding-left: .8rem; min-height: 4rem; }
code { font: .93em ui-monospace, monospace; }
.source { display: block; }
@media print {
  #filters label, #cell, #keys { display: none; }
  #frame { max-height: none; overflow: visible; border: 0; }
  section { overflow: visible; }
  body { font-size: 9pt; margin: 0; }
  thead th { position: static; }
  tr, li { break-inside: avoid; }
}
";
