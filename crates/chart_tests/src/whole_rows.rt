//! Whole pictures of small histories, worked out by hand from `Chart.antt`.

/// The beginning of each picture, up to its height.
pub const START: &str = "<svg xmlns=\"http://www.w3.org/2000/svg\" viewBox=\"0 0 1400 ";

/// What follows the height in each picture, up to its lifelines.
pub const HEAD: &str =
    "\" role=\"img\" aria-labelledby=\"name about\" font-family=\"ui-monospace, Menlo, Consolas, 'DejaVu Sans Mono', monospace\" font-size=\"13\">
<title id=\"name\">The history of a channel</title>
<desc id=\"about\">The lifeline of the parent is on the left and that of the child on the right. Each row is a line of the history. Arrows go from a send to its delivery, bars are handlers and waits.</desc>
<style>@media(prefers-color-scheme:dark){.ground{fill:#16181c}text{fill:#e6e6e6}.trouble{fill:#ffa07a}.life{stroke:#aaa}.request,.outbox,.wait{stroke:#56b4e9}.wait{fill:#16181c}.reply{stroke:#2fc79b}.farewell,.fall{stroke:#ff8c42}.item{stroke:#e58fd2}}</style>
<defs><marker id=\"head\" viewBox=\"0 0 8 8\" refX=\"8\" refY=\"4\" markerWidth=\"8\" markerHeight=\"8\" markerUnits=\"userSpaceOnUse\" orient=\"auto\"><path fill=\"context-stroke\" d=\"M0 0L8 4L0 8Z\"/></marker></defs>
<rect class=\"ground\" width=\"100%\" height=\"100%\" fill=\"#fff\"/>
<text x=\"600\" y=\"32\" text-anchor=\"middle\" font-size=\"16\">parent</text>
<text x=\"800\" y=\"32\" text-anchor=\"middle\" font-size=\"16\">child</text>
";

/// Each row: its name and the side that has the most events, or `-`; its lines; and after `----` the height of the picture and
/// what is drawn after its head. `====` is between two rows.
pub const WHOLE: &str = "empty -
----
130
<path class=\"life\" stroke=\"#555\" stroke-width=\"1\" d=\"M600 44L600 70\"/><path class=\"life\" stroke=\"#555\" stroke-width=\"1\" d=\"M800 44L800 70\"/>
<text text-anchor=\"middle\" font-size=\"16\" x=\"700\" y=\"110\">finished</text>
</svg>
====
sent parent
child send -1 to 2147483647 PQ.Tell(7)
parent deliver request -1
----
170
<path class=\"life\" stroke=\"#555\" stroke-width=\"1\" d=\"M600 44L600 110\"/><path class=\"life\" stroke=\"#555\" stroke-width=\"1\" d=\"M800 44L800 110\"/>
<g><title>child send -1 to 2147483647 PQ.Tell(7)</title><path class=\"request\" stroke=\"#0072b2\" stroke-width=\"2\" stroke-dasharray=\"7 4\" marker-end=\"url(#head)\" d=\"M793 70L607 90\"/><text text-anchor=\"start\" x=\"855\" y=\"74\">send -1 PQ.Tell(7)</text></g>
<g><title>parent deliver request -1</title><path class=\"item\" stroke=\"#aa4499\" stroke-width=\"3\" d=\"M618 90L618 110\"/><text text-anchor=\"end\" x=\"545\" y=\"94\">deliver request -1</text></g>
<text text-anchor=\"middle\" font-size=\"16\" x=\"700\" y=\"150\">spent parent</text>
</svg>
====
closed child
child close
  fall 2147483647 NormalShutdown
----
170
<path class=\"life\" stroke=\"#555\" stroke-width=\"1\" d=\"M600 44L600 110\"/><path class=\"life\" stroke=\"#555\" stroke-width=\"1\" d=\"M800 44L800 90\"/><path class=\"life\" stroke=\"#555\" stroke-width=\"1\" d=\"M788 90L812 90\"/>
<g><title>child close</title><path class=\"farewell\" stroke=\"#b34700\" stroke-width=\"2\" stroke-dasharray=\"2 3\" opacity=\".5\" d=\"M793 70L607 110\"/><text text-anchor=\"start\" x=\"855\" y=\"74\">close</text></g>
<g><title>  fall 2147483647 NormalShutdown</title><path class=\"fall\" stroke=\"#b34700\" stroke-width=\"2\" d=\"M794 84L806 96\"/><path class=\"fall\" stroke=\"#b34700\" stroke-width=\"2\" d=\"M794 96L806 84\"/><text text-anchor=\"start\" class=\"trouble\" fill=\"#9a3412\" x=\"855\" y=\"94\">fall 2147483647 NormalShutdown</text></g>
<text text-anchor=\"middle\" font-size=\"16\" x=\"700\" y=\"150\">spent child</text>
</svg>
";

/// The number of rows.
pub const WHOLE_COUNT: &str = "3";
