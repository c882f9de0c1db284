//! Texts of XML-RPC for the tests, each worked out from the grammar.

/// Spellings of values, each with the written text of its value.
pub const VALUES: [(&str, &str); 54] = [
    ("<value><int>5</int></value>", "<value><int>5</int></value>"),
    ("<value><i4>5</i4></value>", "<value><int>5</int></value>"),
    ("<value><i4>-5</i4></value>", "<value><int>-5</int></value>"),
    (
        "<value><int>+5</int></value>",
        "<value><int>5</int></value>",
    ),
    (
        "<value><int>007</int></value>",
        "<value><int>7</int></value>",
    ),
    (
        "<value><int>-0</int></value>",
        "<value><int>0</int></value>",
    ),
    (
        "<value><int>9223372036854775807</int></value>",
        "<value><int>9223372036854775807</int></value>",
    ),
    (
        "<value><int>-9223372036854775808</int></value>",
        "<value><int>-9223372036854775808</int></value>",
    ),
    (
        "<value><int>00000000000000000000000001</int></value>",
        "<value><int>1</int></value>",
    ),
    (
        "<value><int>5</int \t\r\n></value>",
        "<value><int>5</int></value>",
    ),
    (
        "<value><boolean>1</boolean></value>",
        "<value><boolean>1</boolean></value>",
    ),
    (
        "<value><boolean>0</boolean ></value >",
        "<value><boolean>0</boolean></value>",
    ),
    (
        "<value><string>a</string></value>",
        "<value><string>a</string></value>",
    ),
    (
        "<value><string></string></value>",
        "<value><string></string></value>",
    ),
    (
        "<value><string/></value>",
        "<value><string></string></value>",
    ),
    ("<value/>", "<value><string></string></value>"),
    ("<value></value>", "<value><string></string></value>"),
    ("<value>a</value>", "<value><string>a</string></value>"),
    ("<value> a </value>", "<value><string> a </string></value>"),
    ("<value>  </value>", "<value><string>  </string></value>"),
    (
        "<value>\t\n</value>",
        "<value><string>\t\n</string></value>",
    ),
    (
        "<value>\n<int>1</int>\n</value>",
        "<value><int>1</int></value>",
    ),
    (
        "<value> <string> a </string> </value>",
        "<value><string> a </string></value>",
    ),
    (
        "<value> <string/> </value>",
        "<value><string></string></value>",
    ),
    (
        "<value><double>1.5</double></value>",
        "<value><double>1.5</double></value>",
    ),
    (
        "<value><double></double></value>",
        "<value><double></double></value>",
    ),
    (
        "<value><double> &#49; </double ></value>",
        "<value><double> 1 </double></value>",
    ),
    (
        "<value><dateTime.iso8601>19980717T14:08:55</dateTime.iso8601></value>",
        "<value><dateTime.iso8601>19980717T14:08:55</dateTime.iso8601></value>",
    ),
    (
        "<value><base64>eW91IGNhbid0\n</base64></value>",
        "<value><base64>eW91IGNhbid0\n</base64></value>",
    ),
    (
        "<value><struct></struct></value>",
        "<value><struct></struct></value>",
    ),
    (
        "<value><struct/></value>",
        "<value><struct></struct></value>",
    ),
    (
        "<value> <struct> </struct > </value>",
        "<value><struct></struct></value>",
    ),
    (
        "<value><struct><member><name>a</name><value><int>1</int></value></member></struct></value>",
        "<value><struct><member><name>a</name><value><int>1</int></value></member></struct></value>",
    ),
    (
        "<value><struct> <member> <name> a</name > <value>1</value> </member > </struct></value>",
        "<value><struct><member><name> a</name><value><string>1</string></value></member></struct></value>",
    ),
    (
        "<value><struct><member><name></name><value/></member></struct></value>",
        "<value><struct><member><name></name><value><string></string></value></member></struct></value>",
    ),
    (
        "<value><struct><member><name>b</name><value>1</value></member><member><name>a</name><value>2</value></member><member><name>b</name><value>3</value></member></struct></value>",
        "<value><struct><member><name>b</name><value><string>1</string></value></member><member><name>a</name><value><string>2</string></value></member><member><name>b</name><value><string>3</string></value></member></struct></value>",
    ),
    (
        "<value><struct><member><name>&lt;&#65;&gt;</name><value><struct/></value></member></struct></value>",
        "<value><struct><member><name>&lt;A&gt;</name><value><struct></struct></value></member></struct></value>",
    ),
    (
        "<value><array><data></data></array></value>",
        "<value><array><data></data></array></value>",
    ),
    (
        "<value><array><data/></array></value>",
        "<value><array><data></data></array></value>",
    ),
    (
        "<value><array> <data/> </array ></value>",
        "<value><array><data></data></array></value>",
    ),
    (
        "<value><array>\n<data>\n<value/>\n<value>2</value>\n</data >\n</array>\n</value>",
        "<value><array><data><value><string></string></value><value><string>2</string></value></data></array></value>",
    ),
    (
        "<value><array><data><value><array><data><value><int>1</int></value></data></array></value><value><struct/></value></data></array></value>",
        "<value><array><data><value><array><data><value><int>1</int></value></data></array></value><value><struct></struct></value></data></array></value>",
    ),
    (
        "<value>&lt;&gt;&amp;&quot;&apos;</value>",
        "<value><string>&lt;&gt;&amp;\"'</string></value>",
    ),
    (
        "<value>&#65;&#x41;&#0066;&#x00043;</value>",
        "<value><string>AABC</string></value>",
    ),
    (
        "<value>&#xe9;&#xE9;&#233;</value>",
        "<value><string>\u{e9}\u{e9}\u{e9}</string></value>",
    ),
    (
        "<value>&#9;&#10;&#13;&#32;</value>",
        "<value><string>\t\n&#13; </string></value>",
    ),
    (
        "<value>&#xD7FF;&#xE000;&#xFFFD;&#x10000;&#x10FFFF;</value>",
        "<value><string>\u{d7ff}\u{e000}\u{fffd}\u{10000}\u{10ffff}</string></value>",
    ),
    (
        "<value>&#38;lt;</value>",
        "<value><string>&amp;lt;</string></value>",
    ),
    (
        "<value>&amp;amp;</value>",
        "<value><string>&amp;amp;</string></value>",
    ),
    (
        "<value>a > b ]]> c</value>",
        "<value><string>a &gt; b ]]&gt; c</string></value>",
    ),
    (
        "<value>a\rb\r\n</value>",
        "<value><string>a&#13;b&#13;\n</string></value>",
    ),
    (
        "<value>\x7f\u{80}\u{7ff}\u{800}\u{d7ff}\u{e000}\u{fffd}\u{10000}\u{10ffff}</value>",
        "<value><string>\x7f\u{80}\u{7ff}\u{800}\u{d7ff}\u{e000}\u{fffd}\u{10000}\u{10ffff}</string></value>",
    ),
    (
        "<value> &#32; </value>",
        "<value><string>   </string></value>",
    ),
    ("<value>1</value>", "<value><string>1</string></value>"),
];

/// Texts that spell no value: the longest prefix with which a good one begins, and what follows it.
pub const NO_TAGS: [(&str, &str); 39] = [
    ("", "x"),
    ("<", "int/>"),
    ("<v", "bool>"),
    ("<value", " >"),
    ("<value", " />"),
    ("<value>a<", "int>1</int></value>"),
    ("<value><", "x></value>"),
    ("<value></", "int></value>"),
    ("<value><int>", "</int></value>"),
    ("<value><int>-", "</int></value>"),
    ("<value><int>+", "-1</int></value>"),
    ("<value><int>", " 1</int></value>"),
    ("<value><int>1", " </int></value>"),
    ("<value><int>1", ".5</int></value>"),
    ("<value><int>", "&#49;</int></value>"),
    ("<value><int>1", "a</int></value>"),
    ("<value><int>922337203685477580", "8</int></value>"),
    ("<value><int>-922337203685477580", "9</int></value>"),
    ("<value><int>9223372036854775807", "0</int></value>"),
    ("<value><int>1</i", "4></value>"),
    ("<value><i4>1</i", "nt></value>"),
    ("<value><i4>1</i4></", ">"),
    ("<value><int", "eger>"),
    ("<value><int", "/></value>"),
    ("<value><i", "8>1</i8></value>"),
    ("<value><boolean>", "2</boolean></value>"),
    ("<value><boolean>", "</boolean></value>"),
    ("<value><boolean>", " 1</boolean></value>"),
    ("<value><boolean>1", " </boolean></value>"),
    ("<value><boolean>0", "1</boolean></value>"),
    ("<value><boolean>", "true</boolean></value>"),
    ("<value><boolean", "/></value>"),
    ("<value><string>a</string>", "b</value>"),
    ("<value><string>a</str", "ong></value>"),
    ("<value><string>a<", "b></string></value>"),
    ("<value><string", "  /></value>"),
    ("<value><string", "  x='1'>a</string></value>"),
    ("<value><string>a</string ", "x></value>"),
    ("<value><string>a</string", "/></value>"),
];

/// Texts that spell no value: the longest prefix with which a good one begins, and what follows it.
pub const NO_FORMS: [(&str, &str); 39] = [
    ("<value><string>a</", " string></value>"),
    ("<value><string></string><", "int>1</int></value>"),
    ("<value>&#32;<", "int>1</int></value>"),
    ("<value><int>1</int>", "&#32;</value>"),
    ("<value><double", "/></value>"),
    ("<value><date", ">x</date></value>"),
    ("<value><double>1.5</d", "ateTime.iso8601></value>"),
    ("<value><dateTime.iso860", "2>x</dateTime.iso8602></value>"),
    ("<value><base64", "/></value>"),
    ("<value><base64>a</base6", "></value>"),
    ("<value><", "nil/></value>"),
    ("<value><", "ex:nil/></value>"),
    ("<value><", "!-- --></value>"),
    ("<value>a<", "!-- --></value>"),
    ("<value><", "![CDATA[a]]></value>"),
    ("<value><", "?x?></value>"),
    ("<value><struct><", "value/></struct></value>"),
    ("<value><struct>", "a</struct></value>"),
    (
        "<value><struct><member><",
        "value/></member></struct></value>",
    ),
    (
        "<value><struct><member><name>a</name><",
        "/member></struct></value>",
    ),
    (
        "<value><struct><member><name",
        "/><value/></member></struct></value>",
    ),
    (
        "<value><struct><member><name>a</name><value/>",
        "x</member></struct></value>",
    ),
    ("<value><struct><member", "/></struct></value>"),
    (
        "<value><struct><member><name>a</name><value/></member><",
        "name>a</name></struct></value>",
    ),
    (
        "<value><struct><member><name>a</name><value/><",
        "value/></member></struct></value>",
    ),
    ("<value><struct/></", "struct></value>"),
    ("<value><s", "et/></value>"),
    ("<value><array", "/></value>"),
    ("<value><array><", "value/></array></value>"),
    ("<value><array><data>", "1</data></array></value>"),
    (
        "<value><array><data><",
        "int>1</int></data></array></value>",
    ),
    (
        "<value><array><data></data><",
        "data></data></array></value>",
    ),
    ("<value><array><data/></", "data></array></value>"),
    ("<value><array><data", "  /></array></value>"),
    ("<value><array><", "/array></value>"),
    ("<value><array><data><value/></data></", "value>"),
    ("<value>&", "</value>"),
    ("<value>a &", " b</value>"),
    ("<value>&l", "e;</value>"),
];

/// Texts that spell no value: the longest prefix with which a good one begins, and what follows it.
pub const NO_TEXTS: [(&str, &str); 39] = [
    ("<value>&lt", " </value>"),
    ("<value>&", "nbsp;</value>"),
    ("<value>&a", "bc;</value>"),
    ("<value>&am", "b;</value>"),
    ("<value>&ap", "p;</value>"),
    ("<value>&quot", "e;</value>"),
    ("<value>&", "LT;</value>"),
    ("<value>&#", ";</value>"),
    ("<value>&#x", ";</value>"),
    ("<value>&#", "X41;</value>"),
    ("<value>&#", "a;</value>"),
    ("<value>&#6", "A;</value>"),
    ("<value>&#x4", "G;</value>"),
    ("<value>&#65", "</value>"),
    ("<value>&#", "-65;</value>"),
    ("<value>&#", " 65;</value>"),
    ("<value>&#0", ";</value>"),
    ("<value>&#8", ";</value>"),
    ("<value>&#11", ";</value>"),
    ("<value>&#31", ";</value>"),
    ("<value>&#xD800", ";</value>"),
    ("<value>&#xDFFF", ";</value>"),
    ("<value>&#xFFFE", ";</value>"),
    ("<value>&#xFFFF", ";</value>"),
    ("<value>&#x10FFF", "G;</value>"),
    ("<value>&#x11000", "0;</value>"),
    ("<value>&#111411", "2;</value>"),
    ("<value>&#55296", ";</value>"),
    ("<value>a", "\x00</value>"),
    ("<value>", "\x08</value>"),
    ("<value>\t\n\r", "\x0b</value>"),
    ("<value>a", "\x1f</value>"),
    ("<value>a</value>", "b"),
    ("<value>a</value><", "value/>"),
    ("<value>a</value><", "param>"),
    ("<value>a", ""),
    ("<value><int>12", ""),
    ("<value>&#x1", ""),
    ("<value><array><data>", ""),
];

/// Texts that spell no value since they are no UTF-8: the longest prefix with which a good one begins, and what follows it.
pub const NO_UTF8: [(&[u8], &[u8]); 19] = [
    (b"<value>a", b"\x80</value>"),
    (b"<value>", b"\xc0\x80</value>"),
    (b"<value>", b"\xc1\xbf</value>"),
    (b"<value>\xc2", b"</value>"),
    (b"<value>\xdf", b"\xc0</value>"),
    (b"<value>\xe0", b"\x9f\xbf</value>"),
    (b"<value>\xe0\xa0", b"</value>"),
    (b"<value>\xed", b"\xa0\x80</value>"),
    (b"<value>\xef\xbf", b"\xbe</value>"),
    (b"<value>\xef\xbf", b"\xbf</value>"),
    (b"<value>\xef\xbe\xbf\xef", b"x</value>"),
    (b"<value>\xe2\x82", b"&amp;</value>"),
    (b"<value>\xf0", b"\x8f\xbf\xbf</value>"),
    (b"<value>\xf4", b"\x90\x80\x80</value>"),
    (b"<value>\xf0\x90", b"</value>"),
    (b"<value>\xf0\x90\x80", b"\xc0</value>"),
    (b"<value>", b"\xf5\x80\x80\x80</value>"),
    (b"<value>", b"\xff</value>"),
    (b"<value>\xe2\x82", b""),
];

/// Texts of calls, each with what the call's written text has within `<methodCall>`. The last is what Python's
/// `xmlrpc.client` writes for `(1, True, 1.5, "a<b", Binary(b"hi"), DateTime(..), [2, "c"], {"k": "v"})`.
pub const CALLS: [(&str, &str); 6] = [
    (
        "<methodCall><methodName>m</methodName></methodCall>",
        "<methodName>m</methodName><params></params>",
    ),
    (
        " \t\r\n<methodCall> <methodName>m</methodName > </methodCall\n> \n",
        "<methodName>m</methodName><params></params>",
    ),
    (
        "<?xml?><methodCall><methodName>m</methodName><params/></methodCall>",
        "<methodName>m</methodName><params></params>",
    ),
    (
        "\n<?xml version=\"1.0\" ??? > encoding\x01 \u{e9}?>\n<methodCall><methodName> m &amp; n</methodName><params>\n</params ></methodCall>",
        "<methodName> m &amp; n</methodName><params></params>",
    ),
    (
        "<methodCall><methodName>a</methodName><params><param><value/></param> <param> <value>2</value> </param\n></params></methodCall>",
        "<methodName>a</methodName><params><param><value><string></string></value></param><param><value><string>2</string></value></param></params>",
    ),
    (
        "<?xml version='1.0'?>\n<methodCall>\n<methodName>m.n</methodName>\n<params>\n<param>\n<value><int>1</int></value>\n</param>\n<param>\n<value><boolean>1</boolean></value>\n</param>\n<param>\n<value><double>1.5</double></value>\n</param>\n<param>\n<value><string>a&lt;b</string></value>\n</param>\n<param>\n<value><base64>\naGk=\n</base64></value>\n</param>\n<param>\n<value><dateTime.iso8601>20260102T03:04:05</dateTime.iso8601></value>\n</param>\n<param>\n<value><array><data>\n<value><int>2</int></value>\n<value><string>c</string></value>\n</data></array></value>\n</param>\n<param>\n<value><struct>\n<member>\n<name>k</name>\n<value><string>v</string></value>\n</member>\n</struct></value>\n</param>\n</params>\n</methodCall>\n",
        "<methodName>m.n</methodName><params><param><value><int>1</int></value></param><param><value><boolean>1</boolean></value></param><param><value><double>1.5</double></value></param><param><value><string>a&lt;b</string></value></param><param><value><base64>\naGk=\n</base64></value></param><param><value><dateTime.iso8601>20260102T03:04:05</dateTime.iso8601></value></param><param><value><array><data><value><int>2</int></value><value><string>c</string></value></data></array></value></param><param><value><struct><member><name>k</name><value><string>v</string></value></member></struct></value></param></params>",
    ),
];

/// Texts that spell no call: the longest prefix with which a good one begins, and what follows it.
pub const NO_CALLS: [(&[u8], &[u8]); 36] = [
    (b"", b""),
    (b" \n", b""),
    (b"", b"x"),
    (b"<", b"!DOCTYPE methodCall><methodCall>"),
    (b"<", b"!-- --><methodCall>"),
    (b"<method", b"Response>"),
    (b"<methodCall", b" ><methodName>m</methodName></methodCall>"),
    (b"<methodCall", b" x=\"1\">"),
    (b"<methodCall", b"/>"),
    (b"<methodCall><", b"/methodCall>"),
    (b"<methodCall><methodName>", b"</methodName></methodCall>"),
    (b"<methodCall><methodName", b"/></methodCall>"),
    (b"<methodCall>", b"m"),
    (b"<methodCall><", b"params/>"),
    (b"<methodCall><methodName>m</methodName><", b"methodName>"),
    (b"<methodCall><methodName>m</methodN", b"ome>"),
    (b"<methodCall><methodName>m<", b"x>"),
    (
        b"<methodCall><methodName>m</methodName></methodCall> ",
        b"x",
    ),
    (
        b"<methodCall><methodName>m</methodName></methodCall>",
        b"<methodCall>",
    ),
    (
        b"<methodCall><methodName>m</methodName></methodCall>",
        b"\x00",
    ),
    (
        b"<methodCall><methodName>m</methodName><params/></",
        b"params></methodCall>",
    ),
    (
        b"<methodCall><methodName>m</methodName><params/><",
        b"params/></methodCall>",
    ),
    (
        b"<methodCall><methodName>m</methodName><params><",
        b"value/></params></methodCall>",
    ),
    (
        b"<methodCall><methodName>m</methodName><params><param",
        b"/></params></methodCall>",
    ),
    (
        b"<methodCall><methodName>m</methodName><params><param><",
        b"/param></params></methodCall>",
    ),
    (
        b"<methodCall><methodName>m</methodName><params></param",
        b"></methodCall>",
    ),
    (
        b"<methodCall><methodName>m</methodName><params></params></",
        b"params></methodCall>",
    ),
    (b"<?xml?><", b"?xml?><methodCall>"),
    (b"<?xml version='1.0'?>", b"x"),
    (b"<?xml version='1.0'", b""),
    (b"<?xm", b""),
    (b"<?", b"php?>"),
    (b"<?xml ", b"\xff?>"),
    (b"<?xml \xe2", b"?>"),
    (b"<methodCall><methodName>m</methodName></methodCall", b"/>"),
    (
        b"<?xml version='1.0'?>\n<methodCall>\n<methodName>m</methodName>\n<params>\n<param>\n<value><",
        b"nil/></value></param>\n</params>\n</methodCall>\n",
    ),
];

/// Texts of replies, each with what the reply's written text has within `<methodResponse>`.
pub const REPLIES: [(&str, &str); 4] = [
    (
        "<methodResponse><params><param><value>a</value></param></params></methodResponse>",
        "<params><param><value><string>a</string></value></param></params>",
    ),
    (
        " <?xml ?> <methodResponse> <params> <param> <value/> </param > </params > </methodResponse > ",
        "<params><param><value><string></string></value></param></params>",
    ),
    (
        "<methodResponse><fault><value><struct><member><name>faultCode</name><value><int>4</int></value></member><member><name>faultString</name><value>Too many</value></member></struct></value></fault></methodResponse>",
        "<fault><value><struct><member><name>faultCode</name><value><int>4</int></value></member><member><name>faultString</name><value><string>Too many</string></value></member></struct></value></fault>",
    ),
    (
        "<methodResponse> <fault> <value><struct><member><name>faultString</name><value><string/></value></member><member><name>faultCode</name><value><i4>-1</i4></value></member></struct></value> </fault > </methodResponse>",
        "<fault><value><struct><member><name>faultCode</name><value><int>-1</int></value></member><member><name>faultString</name><value><string></string></value></member></struct></value></fault>",
    ),
];

/// Texts that spell no reply: the longest prefix with which a good one begins, and what follows it.
pub const NO_REPLIES: [(&[u8], &[u8]); 13] = [
    (b"<method", b"Call>"),
    (b"<methodResponse><", b"/methodResponse>"),
    (b"<methodResponse><params", b"/></methodResponse>"),
    (b"<methodResponse><params><", b"/params></methodResponse>"),
    (
        b"<methodResponse><params><param><value/></param><",
        b"param><value/></param></params></methodResponse>",
    ),
    (
        b"<methodResponse><fault><value>a</value>",
        b"</fault></methodResponse>",
    ),
    (
        b"<methodResponse><fault><value/>",
        b" </fault></methodResponse>",
    ),
    (
        b"<methodResponse><fault><value><struct><member><name>faultCode</name><value><int>4</int></value></member></struct></value>",
        b"</fault></methodResponse>",
    ),
    (
        b"<methodResponse><fault><value><struct><member><name>faultCode</name><value><int>4</int></value></member><member><name>faultString</name><value><int>4</int></value></member></struct></value>",
        b" </fault></methodResponse>",
    ),
    (
        b"<methodResponse><fault><value><struct><member><name>faultCode</name><value><int>4</int></value></member><member><name>faultString</name><value>a</value></member><member><name>faultString</name><value>a</value></member></struct></value>",
        b"</fault></methodResponse>",
    ),
    (
        b"<methodResponse><fault><value><struct><member><name>faultCode</name><value><int>4</int></value></member><member><name>faultstring</name><value>a</value></member></struct></value>",
        b"</fault></methodResponse>",
    ),
    (
        b"<methodResponse><fault><value><array><data/></array></value>",
        b"",
    ),
    (
        b"<methodResponse><params><param><value/></param></params></methodResponse>",
        b"x",
    ),
];

/// Bytes of logs, each with its text.
pub const LOGS: [(&[u8], &str); 31] = [
    (b"", ""),
    (b"started: pid 12 ~\x7f", "started: pid 12 ~\x7f"),
    (b"\ta\nb\r\n", "\ta\nb\r\n"),
    (b"\x00\x01\x02\x03\x04\x05\x06\x07\x08", "?????????"),
    (b"\x0b\x0c", "??"),
    (b"\x0e\x0f\x10\x11\x12\x13\x14\x15\x16", "?????????"),
    (b"\x17\x18\x19\x1a\x1b\x1c\x1d\x1e\x1f", "?????????"),
    (
        b"\xc2\x80\xc2\x9f\xc3\xa9\xdf\xbf",
        "\u{80}\u{9f}\u{e9}\u{7ff}",
    ),
    (
        b"\xe0\xa0\x80\xe2\x82\xac\xed\x9f\xbf",
        "\u{800}\u{20ac}\u{d7ff}",
    ),
    (b"\xee\x80\x80\xef\xbf\xbd", "\u{e000}\u{fffd}"),
    (
        b"\xf0\x90\x80\x80\xf0\x9f\xbf\xbe\xf4\x8f\xbf\xbf",
        "\u{10000}\u{1fffe}\u{10ffff}",
    ),
    (b"\xef\xbf\xbe\xef\xbf\xbf", "??????"),
    (b"\xed\xa0\x80\xed\xbf\xbf", "??????"),
    (b"\xc0\x80\xc1\xbf", "????"),
    (b"\xe0\x80\x80\xe0\x9f\xbf", "??????"),
    (b"\xf0\x80\x80\x80\xf0\x8f\xbf\xbf", "????????"),
    (b"\xf4\x90\x80\x80\xf5\x80\x80\x80", "????????"),
    (b"a\x80b\xbfc\xfed\xff", "a?b?c?d?"),
    (b"\xc3a", "?a"),
    (b"\xe2a\xac", "?a?"),
    (b"\xe2\x82a", "??a"),
    (b"\xf0a\x98\x80", "?a??"),
    (b"\xf0\x9fa\x80", "??a?"),
    (b"\xf0\x9f\x98a", "???a"),
    (b"a\xc3", "a?"),
    (b"a\xe2", "a?"),
    (b"a\xe2\x82", "a??"),
    (b"a\xf0\x9f", "a??"),
    (b"a\xf0\x9f\x98", "a???"),
    (b"\xe2\x82\xe2\x82\xac\xc3\xc3\xa9", "??\u{20ac}?\u{e9}"),
    (
        b"\xc3\xa9\xa9\x1b[0m \xf0\x9f\x98\x80\n",
        "\u{e9}??[0m \u{1f600}\n",
    ),
];
