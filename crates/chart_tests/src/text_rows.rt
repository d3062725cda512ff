//! Rows of bytes, as the title of a row shows them.

/// Each row: whether the bytes are the value of a text or a name, which a transcript prints as it is; the bytes, two digits
/// each; and after ` | ` the title.
pub const TEXTS: &str = "value 61 | child send -1 to 2147483647 PText.Say(\"a\")
value - | child send -1 to 2147483647 PText.Say(\"\")
value 3c | child send -1 to 2147483647 PText.Say(\"&lt;\")
value 3e | child send -1 to 2147483647 PText.Say(\"&gt;\")
value 26 | child send -1 to 2147483647 PText.Say(\"&amp;\")
value 22 | child send -1 to 2147483647 PText.Say(\"\\\"\")
value 27 | child send -1 to 2147483647 PText.Say(\"'\")
value 5c | child send -1 to 2147483647 PText.Say(\"\\\\\")
value 0a | child send -1 to 2147483647 PText.Say(\"\\n\")
value 09 | child send -1 to 2147483647 PText.Say(\"\\t\")
value 00 | child send -1 to 2147483647 PText.Say(\"\\x00\")
value 1f | child send -1 to 2147483647 PText.Say(\"\\x1f\")
value 20 | child send -1 to 2147483647 PText.Say(\" \")
value 7e | child send -1 to 2147483647 PText.Say(\"~\")
value 7f | child send -1 to 2147483647 PText.Say(\"\\x7f\")
value 266c743b | child send -1 to 2147483647 PText.Say(\"&amp;lt;\")
value 5d5d3e | child send -1 to 2147483647 PText.Say(\"]]&gt;\")
value 3c2f7376673e | child send -1 to 2147483647 PText.Say(\"&lt;/svg&gt;\")
value c280 | child send -1 to 2147483647 PText.Say(\"\u{80}\")
value c3a9 | child send -1 to 2147483647 PText.Say(\"é\")
value e282ac | child send -1 to 2147483647 PText.Say(\"€\")
value ee8080 | child send -1 to 2147483647 PText.Say(\"\u{e000}\")
value eebfbf | child send -1 to 2147483647 PText.Say(\"\u{efff}\")
value ef8080 | child send -1 to 2147483647 PText.Say(\"\\xef\\x80\\x80\")
value efbfbd | child send -1 to 2147483647 PText.Say(\"\\xef\\xbf\\xbd\")
value efbfbe | child send -1 to 2147483647 PText.Say(\"\\xef\\xbf\\xbe\")
value efbfbf | child send -1 to 2147483647 PText.Say(\"\\xef\\xbf\\xbf\")
value f0908080 | child send -1 to 2147483647 PText.Say(\"\u{10000}\")
value f09f9880 | child send -1 to 2147483647 PText.Say(\"\u{1f600}\")
value f48fbfbf | child send -1 to 2147483647 PText.Say(\"\u{10ffff}\")
value c3a9efbfbd | child send -1 to 2147483647 PText.Say(\"\\xc3\\xa9\\xef\\xbf\\xbd\")
value ff | child send -1 to 2147483647 PText.Say(\"\\xff\")
value 80 | child send -1 to 2147483647 PText.Say(\"\\x80\")
value c3 | child send -1 to 2147483647 PText.Say(\"\\xc3\")
value c080 | child send -1 to 2147483647 PText.Say(\"\\xc0\\x80\")
value eda080 | child send -1 to 2147483647 PText.Say(\"\\xed\\xa0\\x80\")
value f4908080 | child send -1 to 2147483647 PText.Say(\"\\xf4\\x90\\x80\\x80\")
value c3a9ff | child send -1 to 2147483647 PText.Say(\"\\xc3\\xa9\\xff\")
value 3cc3a926ff | child send -1 to 2147483647 PText.Say(\"&lt;\\xc3\\xa9&amp;\\xff\")
name 61 | child let a 4
name 22 | child let \" 4
name 5c | child let \\ 4
name 3c673e | child let &lt;g&gt; 4
name 00 | child let \\x00 4
name 09 | child let \\x09 4
name 0a | child let \\x0a 4
name 1f | child let \\x1f 4
name 7f | child let \\x7f 4
name c3a9 | child let é 4
name c3a97f | child let é\\x7f 4
name efbfbe | child let \\xef\\xbf\\xbe 4
name ff | child let \\xff 4";

/// The number of rows.
pub const TEXTS_COUNT: &str = "52";
