//! How a page looks.

/// What a page may load: nothing, and its own style alone counts, by its SHA-256.
pub(crate) const POLICY: &str =
    "default-src 'none'; style-src 'sha256-bN6U7udCdiSGKyadWTmryjF7DP3UtFWB+nnlsNSX7gg='; base-uri 'none'; form-action 'none'";

/// The style of a page. None of its characters means anything to a reader of pages.
pub(crate) fn style() -> &'static str {
    ":root {
  color-scheme: light dark;
  --page: #ffffff; --raised: #f6f7f9; --ink: #1a1f26; --quiet: #566070; --rule: #d8dde4; --link: #1a5fb4;
  --narrows: #0a6b4a; --breaks: #b42318; --unshown: #8a5300; --unusable: #6a3fa0; --baseless: #4b5768;
  --mark: #ffe3df;
}
@media screen and (prefers-color-scheme: dark) {
  :root {
    --page: #12161b; --raised: #1a2027; --ink: #e4e8ee; --quiet: #9aa6b5; --rule: #303945; --link: #82b4f5;
    --narrows: #58c99b; --breaks: #ff8f84; --unshown: #e5b053; --unusable: #c2a1f2; --baseless: #aab5c4;
    --mark: #5a2521;
  }
}
* { box-sizing: border-box; }
html { background: var(--page); color: var(--ink); font: 1rem/1.5 system-ui, sans-serif; -webkit-text-size-adjust: 100%; }
body { margin: 0 auto; max-width: 64rem; padding: 2.5rem 1rem 4rem; overflow-wrap: anywhere; }
h1, h2, h3, h4, p, ul, dl, pre { margin: 0; }
h1 { font-size: 1.75rem; line-height: 1.2; letter-spacing: -.01em; }
h2 { font-size: 1.25rem; line-height: 1.3; margin-top: 3rem; }
h3 { font-size: 1.0625rem; line-height: 1.35; }
h4 { font-size: .875rem; margin-top: 1.25rem; }
a { color: var(--link); text-underline-offset: .15em; text-decoration-thickness: 1px; }
a:focus-visible, [tabindex]:focus-visible { outline: 2px solid var(--link); outline-offset: 2px; }
code, pre, .tree, .id { font-family: ui-monospace, SFMono-Regular, Menlo, Consolas, monospace; font-size: .8125rem; }
bdi, code, td, th, a, h3, li, p, tspan { unicode-bidi: isolate; }
.lead { margin-top: .5rem; color: var(--quiet); }
.counts { display: grid; grid-template-columns: repeat(2, 1fr); gap: .75rem; margin-top: 1.5rem; }
@media (min-width: 36rem) { .counts { grid-template-columns: repeat(3, 1fr); } }
@media (min-width: 56rem) { .counts { grid-template-columns: repeat(6, 1fr); } }
.counts div { border: 1px solid var(--rule); border-top: 3px solid currentColor; border-radius: 4px; padding: .625rem .75rem .75rem; display: flex; flex-direction: column-reverse; justify-content: flex-end; }
.counts .none { color: var(--quiet); border-top-color: var(--rule); }
.counts dt { font-size: .875rem; }
.counts dd { margin: 0; font-size: 1.75rem; line-height: 1.15; font-weight: 600; font-variant-numeric: tabular-nums; }
.narrows { color: var(--narrows); } .breaks { color: var(--breaks); } .unshown { color: var(--unshown); }
.unusable { color: var(--unusable); } .baseless { color: var(--baseless); } .all { color: var(--ink); } .base { color: var(--quiet); }
.list { list-style: none; padding: 0; margin-top: .75rem; }
.list li { padding: .25rem 0; }
.scroll { overflow-x: auto; margin-top: .75rem; }
svg { display: block; overflow: visible; }
svg text { fill: var(--ink); font-size: 13px; }
svg a text { fill: var(--ink); }
svg a:hover .name { text-decoration: underline; }
svg .line { fill: none; stroke: var(--rule); }
svg .spot { fill: currentColor; stroke: currentColor; stroke-width: 2; }
svg .hollow { fill: var(--page); }
svg .word { fill: currentColor; }
.profile { border-top: 1px solid var(--rule); margin-top: 2rem; padding-top: 1.25rem; scroll-margin-top: .5rem; }
.profile:target { border-top: 2px solid var(--link); }
.says { margin-top: .25rem; }
h4 + p { margin-top: .25rem; }
.url { color: var(--quiet); }
table { border-collapse: collapse; table-layout: fixed; width: 100%; min-width: 18rem; font-size: .875rem; }
th, td { text-align: left; vertical-align: top; padding: .25rem .75rem .25rem 0; font-weight: 400; }
thead th { color: var(--quiet); font-size: .8125rem; border-bottom: 1px solid var(--rule); }
thead th:first-child { width: 6.25rem; }
@media (min-width: 36rem) { thead th:first-child { width: 7.5rem; } }
tbody th { color: var(--quiet); padding-left: .75rem; }
tbody th.id { color: var(--ink); font-weight: 600; padding: .625rem 0 .125rem; }
tbody { border-bottom: 1px solid var(--rule); }
td { white-space: pre-wrap; }
td.old { color: var(--quiet); }
tr.fails th, tr.fails td { background: var(--mark); color: var(--ink); }
tr.fails th { border-left: 3px solid var(--breaks); }
pre { background: var(--raised); border: 1px solid var(--rule); border-radius: 4px; margin-top: .5rem; padding: .75rem; line-height: 1.45; white-space: pre-wrap; }
mark { background: var(--mark); color: inherit; border-radius: 2px; outline: 1px solid var(--breaks); }
.unread { margin-top: .5rem; padding-left: 1.125rem; }
.meanings div { margin-top: .75rem; }
.meanings dt { font-weight: 600; }
.meanings dd { margin: 0; color: var(--ink); }
.profile { content-visibility: auto; contain-intrinsic-size: auto 24rem; }
@media print {
  html { font-size: 10pt; }
  body { max-width: none; padding: 0; }
  .profile { content-visibility: visible; }
  .scroll { overflow: visible; }
  h2, h3, h4, tbody th.id { break-after: avoid; }
  tr, .counts div { break-inside: avoid; }
  a { color: inherit; text-decoration: none; }
  * { print-color-adjust: exact; -webkit-print-color-adjust: exact; }
}
"
}
