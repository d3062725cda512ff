//! Rows of texts that are repeated, as the label and the title of a row show them.

/// Each row: how often some bytes are repeated, and the bytes, two digits each; the label, whose values are cut after 40
/// characters, the quotes among them; and the whole title. `====` is between two rows.
pub const CUTS: &str = "36 61
send -1 PText.Say(\"aaaaaaaaaaaaaaaaaaaaaaaaaaaaaaaaaaaa\")
child send -1 to 2147483647 PText.Say(\"aaaaaaaaaaaaaaaaaaaaaaaaaaaaaaaaaaaa\")
====
37 61
send -1 PText.Say(\"aaaaaaaaaaaaaaaaaaaaaaaaaaaaaaaaaaaaa\")
child send -1 to 2147483647 PText.Say(\"aaaaaaaaaaaaaaaaaaaaaaaaaaaaaaaaaaaaa\")
====
38 61
send -1 PText.Say(\"aaaaaaaaaaaaaaaaaaaaaaaaaaaaaaaaaaaaaa\")
child send -1 to 2147483647 PText.Say(\"aaaaaaaaaaaaaaaaaaaaaaaaaaaaaaaaaaaaaa\")
====
39 61
send -1 PText.Say(\"aaaaaaaaaaaaaaaaaaaaaaaaaaaaaaaaaaaaaaa…)
child send -1 to 2147483647 PText.Say(\"aaaaaaaaaaaaaaaaaaaaaaaaaaaaaaaaaaaaaaa\")
====
40 61
send -1 PText.Say(\"aaaaaaaaaaaaaaaaaaaaaaaaaaaaaaaaaaaaaaa…)
child send -1 to 2147483647 PText.Say(\"aaaaaaaaaaaaaaaaaaaaaaaaaaaaaaaaaaaaaaaa\")
====
37 c3a9
send -1 PText.Say(\"ééééééééééééééééééééééééééééééééééééé\")
child send -1 to 2147483647 PText.Say(\"ééééééééééééééééééééééééééééééééééééé\")
====
38 c3a9
send -1 PText.Say(\"éééééééééééééééééééééééééééééééééééééé\")
child send -1 to 2147483647 PText.Say(\"éééééééééééééééééééééééééééééééééééééé\")
====
39 c3a9
send -1 PText.Say(\"ééééééééééééééééééééééééééééééééééééééé…)
child send -1 to 2147483647 PText.Say(\"ééééééééééééééééééééééééééééééééééééééé\")
====
37 f09f9880
send -1 PText.Say(\"😀😀😀😀😀😀😀😀😀😀😀😀😀😀😀😀😀😀😀😀😀😀😀😀😀😀😀😀😀😀😀😀😀😀😀😀😀\")
child send -1 to 2147483647 PText.Say(\"😀😀😀😀😀😀😀😀😀😀😀😀😀😀😀😀😀😀😀😀😀😀😀😀😀😀😀😀😀😀😀😀😀😀😀😀😀\")
====
38 f09f9880
send -1 PText.Say(\"😀😀😀😀😀😀😀😀😀😀😀😀😀😀😀😀😀😀😀😀😀😀😀😀😀😀😀😀😀😀😀😀😀😀😀😀😀😀\")
child send -1 to 2147483647 PText.Say(\"😀😀😀😀😀😀😀😀😀😀😀😀😀😀😀😀😀😀😀😀😀😀😀😀😀😀😀😀😀😀😀😀😀😀😀😀😀😀\")
====
39 f09f9880
send -1 PText.Say(\"😀😀😀😀😀😀😀😀😀😀😀😀😀😀😀😀😀😀😀😀😀😀😀😀😀😀😀😀😀😀😀😀😀😀😀😀😀😀😀…)
child send -1 to 2147483647 PText.Say(\"😀😀😀😀😀😀😀😀😀😀😀😀😀😀😀😀😀😀😀😀😀😀😀😀😀😀😀😀😀😀😀😀😀😀😀😀😀😀😀\")
====
20 61c3a9
send -1 PText.Say(\"aéaéaéaéaéaéaéaéaéaéaéaéaéaéaéaéaéaéaéa…)
child send -1 to 2147483647 PText.Say(\"aéaéaéaéaéaéaéaéaéaéaéaéaéaéaéaéaéaéaéaé\")
====
20 c3a961
send -1 PText.Say(\"éaéaéaéaéaéaéaéaéaéaéaéaéaéaéaéaéaéaéaé…)
child send -1 to 2147483647 PText.Say(\"éaéaéaéaéaéaéaéaéaéaéaéaéaéaéaéaéaéaéaéa\")
====
38 3c
send -1 PText.Say(\"&lt;&lt;&lt;&lt;&lt;&lt;&lt;&lt;&lt;&lt;&lt;&lt;&lt;&lt;&lt;&lt;&lt;&lt;&lt;&lt;&lt;&lt;&lt;&lt;&lt;&lt;&lt;&lt;&lt;&lt;&lt;&lt;&lt;&lt;&lt;&lt;&lt;&lt;\")
child send -1 to 2147483647 PText.Say(\"&lt;&lt;&lt;&lt;&lt;&lt;&lt;&lt;&lt;&lt;&lt;&lt;&lt;&lt;&lt;&lt;&lt;&lt;&lt;&lt;&lt;&lt;&lt;&lt;&lt;&lt;&lt;&lt;&lt;&lt;&lt;&lt;&lt;&lt;&lt;&lt;&lt;&lt;\")
====
39 26
send -1 PText.Say(\"&amp;&amp;&amp;&amp;&amp;&amp;&amp;&amp;&amp;&amp;&amp;&amp;&amp;&amp;&amp;&amp;&amp;&amp;&amp;&amp;&amp;&amp;&amp;&amp;&amp;&amp;&amp;&amp;&amp;&amp;&amp;&amp;&amp;&amp;&amp;&amp;&amp;&amp;&amp;…)
child send -1 to 2147483647 PText.Say(\"&amp;&amp;&amp;&amp;&amp;&amp;&amp;&amp;&amp;&amp;&amp;&amp;&amp;&amp;&amp;&amp;&amp;&amp;&amp;&amp;&amp;&amp;&amp;&amp;&amp;&amp;&amp;&amp;&amp;&amp;&amp;&amp;&amp;&amp;&amp;&amp;&amp;&amp;&amp;\")
====
19 22
send -1 PText.Say(\"\\\"\\\"\\\"\\\"\\\"\\\"\\\"\\\"\\\"\\\"\\\"\\\"\\\"\\\"\\\"\\\"\\\"\\\"\\\"\")
child send -1 to 2147483647 PText.Say(\"\\\"\\\"\\\"\\\"\\\"\\\"\\\"\\\"\\\"\\\"\\\"\\\"\\\"\\\"\\\"\\\"\\\"\\\"\\\"\")
====
20 22
send -1 PText.Say(\"\\\"\\\"\\\"\\\"\\\"\\\"\\\"\\\"\\\"\\\"\\\"\\\"\\\"\\\"\\\"\\\"\\\"\\\"\\\"\\…)
child send -1 to 2147483647 PText.Say(\"\\\"\\\"\\\"\\\"\\\"\\\"\\\"\\\"\\\"\\\"\\\"\\\"\\\"\\\"\\\"\\\"\\\"\\\"\\\"\\\"\")
====
9 01
send -1 PText.Say(\"\\x01\\x01\\x01\\x01\\x01\\x01\\x01\\x01\\x01\")
child send -1 to 2147483647 PText.Say(\"\\x01\\x01\\x01\\x01\\x01\\x01\\x01\\x01\\x01\")
====
10 01
send -1 PText.Say(\"\\x01\\x01\\x01\\x01\\x01\\x01\\x01\\x01\\x01\\x0…)
child send -1 to 2147483647 PText.Say(\"\\x01\\x01\\x01\\x01\\x01\\x01\\x01\\x01\\x01\\x01\")
====
13 efbfbd
send -1 PText.Say(\"\\xef\\xbf\\xbd\\xef\\xbf\\xbd\\xef\\xbf\\xbd\\xef\\xbf\\xbd\\xef\\xbf\\xbd\\xef\\xbf\\xbd\\xef\\xbf\\xbd\\xef\\xbf\\xbd\\xef\\xbf\\xbd\\xef\\xbf\\xbd\\xef\\xbf\\xbd\\xef\\xbf\\xbd\\xef\\xbf\\xbd\")
child send -1 to 2147483647 PText.Say(\"\\xef\\xbf\\xbd\\xef\\xbf\\xbd\\xef\\xbf\\xbd\\xef\\xbf\\xbd\\xef\\xbf\\xbd\\xef\\xbf\\xbd\\xef\\xbf\\xbd\\xef\\xbf\\xbd\\xef\\xbf\\xbd\\xef\\xbf\\xbd\\xef\\xbf\\xbd\\xef\\xbf\\xbd\\xef\\xbf\\xbd\")
====
38 ff
send -1 PText.Say(\"\\xff\\xff\\xff\\xff\\xff\\xff\\xff\\xff\\xff\\xff\\xff\\xff\\xff\\xff\\xff\\xff\\xff\\xff\\xff\\xff\\xff\\xff\\xff\\xff\\xff\\xff\\xff\\xff\\xff\\xff\\xff\\xff\\xff\\xff\\xff\\xff\\xff\\xff\")
child send -1 to 2147483647 PText.Say(\"\\xff\\xff\\xff\\xff\\xff\\xff\\xff\\xff\\xff\\xff\\xff\\xff\\xff\\xff\\xff\\xff\\xff\\xff\\xff\\xff\\xff\\xff\\xff\\xff\\xff\\xff\\xff\\xff\\xff\\xff\\xff\\xff\\xff\\xff\\xff\\xff\\xff\\xff\")
====
39 ff
send -1 PText.Say(\"\\xff\\xff\\xff\\xff\\xff\\xff\\xff\\xff\\xff\\xff\\xff\\xff\\xff\\xff\\xff\\xff\\xff\\xff\\xff\\xff\\xff\\xff\\xff\\xff\\xff\\xff\\xff\\xff\\xff\\xff\\xff\\xff\\xff\\xff\\xff\\xff\\xff\\xff\\xff…)
child send -1 to 2147483647 PText.Say(\"\\xff\\xff\\xff\\xff\\xff\\xff\\xff\\xff\\xff\\xff\\xff\\xff\\xff\\xff\\xff\\xff\\xff\\xff\\xff\\xff\\xff\\xff\\xff\\xff\\xff\\xff\\xff\\xff\\xff\\xff\\xff\\xff\\xff\\xff\\xff\\xff\\xff\\xff\\xff\")
====
39 80
send -1 PText.Say(\"\\x80\\x80\\x80\\x80\\x80\\x80\\x80\\x80\\x80\\x80\\x80\\x80\\x80\\x80\\x80\\x80\\x80\\x80\\x80\\x80\\x80\\x80\\x80\\x80\\x80\\x80\\x80\\x80\\x80\\x80\\x80\\x80\\x80\\x80\\x80\\x80\\x80\\x80\\x80\")
child send -1 to 2147483647 PText.Say(\"\\x80\\x80\\x80\\x80\\x80\\x80\\x80\\x80\\x80\\x80\\x80\\x80\\x80\\x80\\x80\\x80\\x80\\x80\\x80\\x80\\x80\\x80\\x80\\x80\\x80\\x80\\x80\\x80\\x80\\x80\\x80\\x80\\x80\\x80\\x80\\x80\\x80\\x80\\x80\")
====
41 80
send -1 PText.Say(\"\\x80\\x80\\x80\\x80\\x80\\x80\\x80\\x80\\x80\\x80\\x80\\x80\\x80\\x80\\x80\\x80\\x80\\x80\\x80\\x80\\x80\\x80\\x80\\x80\\x80\\x80\\x80\\x80\\x80\\x80\\x80\\x80\\x80\\x80\\x80\\x80\\x80\\x80\\x80\\x80\\x80\")
child send -1 to 2147483647 PText.Say(\"\\x80\\x80\\x80\\x80\\x80\\x80\\x80\\x80\\x80\\x80\\x80\\x80\\x80\\x80\\x80\\x80\\x80\\x80\\x80\\x80\\x80\\x80\\x80\\x80\\x80\\x80\\x80\\x80\\x80\\x80\\x80\\x80\\x80\\x80\\x80\\x80\\x80\\x80\\x80\\x80\\x80\")
";

/// The number of rows.
pub const CUTS_COUNT: &str = "24";
