//! Rows of calls of `chart`.

/// Calls of the command that draws the history of a run, in the form of `call_rows`. Each also has `RACE`, after its own files.
pub const CHARTS: &str = "both-call-at-once
chart --schedule PCPC race.ids PW.ipdl
0
@ <svg xmlns=\"http://www.w3.org/2000/svg\" viewBox=\"0 0 1400 410\" role=\"img\" aria-labelledby=\"name about\" font-family=\"ui-monospace, Menlo, Consolas, 'DejaVu Sans Mono', monospace\" font-size=\"13\">
<title id=\"name\">The history of a channel</title>
<desc id=\"about\">The lifeline of the parent is on the left and that of the child on the right. Each row is a line of the history. Arrows go from a send to its delivery, bars are handlers and waits.</desc>
<style>@media(prefers-color-scheme:dark){.ground{fill:#16181c}text{fill:#e6e6e6}.trouble{fill:#ffa07a}.life{stroke:#aaa}.request,.outbox,.wait{stroke:#56b4e9}.wait{fill:#16181c}.reply{stroke:#2fc79b}.farewell,.fall{stroke:#ff8c42}.item{stroke:#e58fd2}}</style>
<defs><marker id=\"head\" viewBox=\"0 0 8 8\" refX=\"8\" refY=\"4\" markerWidth=\"8\" markerHeight=\"8\" markerUnits=\"userSpaceOnUse\" orient=\"auto\"><path fill=\"context-stroke\" d=\"M0 0L8 4L0 8Z\"/></marker></defs>
<rect class=\"ground\" width=\"100%\" height=\"100%\" fill=\"#fff\"/>
<text x=\"600\" y=\"32\" text-anchor=\"middle\" font-size=\"16\">parent</text>
<text x=\"800\" y=\"32\" text-anchor=\"middle\" font-size=\"16\">child</text>
<path class=\"life\" stroke=\"#555\" stroke-width=\"1\" d=\"M600 44L600 350\"/><path class=\"life\" stroke=\"#555\" stroke-width=\"1\" d=\"M800 44L800 350\"/>
<g><title>parent call 1/1 to 2147483647 PW.CallC()</title><rect class=\"wait\" fill=\"#fff\" stroke=\"#0072b2\" stroke-dasharray=\"3 2\" x=\"595\" y=\"70\" width=\"10\" height=\"160\"/><path class=\"request\" stroke=\"#0072b2\" stroke-width=\"2\" marker-end=\"url(#head)\" d=\"M607 70L793 130\"/><text text-anchor=\"end\" x=\"545\" y=\"74\">call 1 PW.CallC()</text></g>
<g><title>child call -1/-1 to 2147483647 PW.CallP()</title><rect class=\"wait\" fill=\"#fff\" stroke=\"#0072b2\" stroke-dasharray=\"3 2\" x=\"795\" y=\"90\" width=\"10\" height=\"240\"/><path class=\"request\" stroke=\"#0072b2\" stroke-width=\"2\" marker-end=\"url(#head)\" d=\"M793 90L607 110\"/><text text-anchor=\"start\" x=\"855\" y=\"94\">call -1 PW.CallP()</text></g>
<g><title>parent deliver request -1</title><path class=\"item\" stroke=\"#aa4499\" stroke-width=\"3\" d=\"M618 110L618 250\"/><text text-anchor=\"end\" x=\"545\" y=\"114\">deliver request -1</text></g>
<g><title>child deliver request 1</title><path class=\"item\" stroke=\"#aa4499\" stroke-width=\"3\" d=\"M782 130L782 150\"/><text text-anchor=\"start\" x=\"855\" y=\"134\">deliver request 1</text></g>
<g><title>child take 1 at 2147483647 PW.CallC()</title><rect class=\"dispatch\" fill=\"#e69f00\" stroke=\"#7a5400\" x=\"800\" y=\"150\" width=\"10\" height=\"20\"/><text text-anchor=\"start\" x=\"855\" y=\"154\">take 1 PW.CallC()</text></g>
<g><title>child return 1</title><text text-anchor=\"start\" x=\"855\" y=\"174\">return 1</text></g>
<g><title>  answer 1 ok (20)</title><path class=\"reply\" stroke=\"#007a5a\" stroke-width=\"1\" marker-end=\"url(#head)\" d=\"M793 190L607 210\"/><text text-anchor=\"start\" opacity=\".75\" x=\"855\" y=\"194\">answer 1 ok (20)</text></g>
<g><title>parent deliver reply 1</title><path class=\"item\" stroke=\"#aa4499\" stroke-width=\"3\" d=\"M622 210L622 230\"/><text text-anchor=\"end\" x=\"545\" y=\"214\">deliver reply 1</text></g>
<g><title>parent resume 1 ok (20)</title><text text-anchor=\"end\" x=\"545\" y=\"234\">resume 1 ok (20)</text></g>
<g><title>parent take -1 at 2147483647 PW.CallP()</title><rect class=\"dispatch\" fill=\"#e69f00\" stroke=\"#7a5400\" x=\"595\" y=\"250\" width=\"10\" height=\"20\"/><text text-anchor=\"end\" x=\"545\" y=\"254\">take -1 PW.CallP()</text></g>
<g><title>parent return -1</title><text text-anchor=\"end\" x=\"545\" y=\"274\">return -1</text></g>
<g><title>  answer -1 ok (10)</title><path class=\"reply\" stroke=\"#007a5a\" stroke-width=\"1\" marker-end=\"url(#head)\" d=\"M607 290L793 310\"/><text text-anchor=\"end\" opacity=\".75\" x=\"545\" y=\"294\">answer -1 ok (10)</text></g>
<g><title>child deliver reply -1</title><path class=\"item\" stroke=\"#aa4499\" stroke-width=\"3\" d=\"M778 310L778 330\"/><text text-anchor=\"start\" x=\"855\" y=\"314\">deliver reply -1</text></g>
<g><title>child resume -1 ok (10)</title><text text-anchor=\"start\" x=\"855\" y=\"334\">resume -1 ok (10)</text></g>
<text text-anchor=\"middle\" font-size=\"16\" x=\"700\" y=\"390\">finished</text>
</svg>
@ ====
bad-script
chart --schedule P bad.ids PW.ipdl
7
@ @ bad.ids:1:1: K1 not a statement
@ bad.ids
nonsense
";
