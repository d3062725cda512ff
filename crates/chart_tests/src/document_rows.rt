//! Documents for the reader of the tests.

/// Each row: a document, and after ` | ` what is wrong with it, or `well`.
pub const DOCUMENTS: &str = "<svg></svg> | well
<svg/> | well
<svg a=\"1\" b=\"2\"><g><path d=\"M0 0\"/>x &lt;&gt;&amp; y</g></svg> | well
 <svg> </svg>  | well
 | no one root
<g></g> | no one root
<svg></svg><svg></svg> | no one root
<svg/><svg/> | no one root
<svg/><g/> | no one root
<svg> | open tag
<svg><g></svg> | closes another tag
<svg><g></svg></g> | closes another tag
<svg></svg></svg> | closes another tag
</svg> | closes another tag
<svg><title></text></svg> | closes another tag
<svg>a > b</svg> | bare mark
<svg>&</svg> | no entity
<svg>&quot;</svg> | no entity
<svg>&lt</svg> | no entity
<svg>&lt;&</svg> | no entity
<svg>a < b</svg> | open mark
<svg></svg | open mark
<svg a=\"1></svg> | open quote
<svg a=\"&\"></svg> | open quote
x<svg></svg> | outside
<svg></svg>x | outside
<svg>\u{1}</svg> | character
<svg>\t</svg> | character
<svg>\u{7f}</svg> | character
<svg>\u{fffe}</svg> | character
<svg>\u{ffff}</svg> | character
<svg>\u{fffd}\u{e000}\u{1f600}é</svg> | well";

/// The number of rows.
pub const DOCUMENTS_COUNT: &str = "32";
