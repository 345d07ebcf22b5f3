/// Trees as ESTree has them, and what selectors match in them, written from ESLint's guide on selectors.
///
/// A tree has its source behind `§`, and a line for each node: its number, a dot for each node around it, the field
/// of its parent, its kind, and its attributes with their values, flags as `yes` and `no`. A hole has `-` as its
/// number, and no kind. After `?` stand selectors, each with the numbers of the nodes that it matches.
pub const TREE_TEXTS: &str = r##"§ if (a == 1) b; else { c(a, 2, "x y"); }
0 Program sourceType script
1 . body IfStatement
2 . . test BinaryExpression operator ==
3 . . . left Identifier name a
4 . . . right Literal raw 1
5 . . consequent ExpressionStatement
6 . . . expression Identifier name b
7 . . alternate BlockStatement
8 . . . body ExpressionStatement
9 . . . . expression CallExpression optional no
10 . . . . . callee Identifier name c
11 . . . . . arguments Identifier name a
12 . . . . . arguments Literal raw 2
13 . . . . . arguments Literal raw "x␠y" value x␠y
?
* -> 0 1 2 3 4 5 6 7 8 9 10 11 12 13
Identifier -> 3 6 10 11
identifier -> 3 6 10 11
IDENTIFIER[name=a] -> 3 11
Identifiers ->
Foo, Literal -> 4 12 13
BinaryExpression > Identifier -> 3
IfStatement > Identifier ->
IfStatement Identifier -> 3 6 10 11
BlockStatement Literal -> 12 13
IfStatement > BlockStatement > ExpressionStatement -> 8
IfStatement > ExpressionStatement -> 5
BlockStatement IfStatement ->
.consequent -> 5
.alternate -> 7
.test.left -> 3
.alternate.body -> 8
.expression.callee -> 10
.body.test -> 2
.body.left ->
.operator ->
.name ->
Literal.arguments -> 12 13
[name] -> 3 6 10 11
[name=a] -> 3 11
[name!=a] -> 0 1 2 4 5 6 7 8 9 10 12 13
[name='a'] -> 3 11
[name=A] ->
[value="x y"] -> 13
[raw=1] -> 4
[value=1] ->
[operator='=='] -> 2
[optional=false] -> 9
[optional=true] ->
[optional] -> 9
[sourceType=script] -> 0
[type=Literal] -> 4 12 13
[type=literal] ->
[type] -> 0 1 2 3 4 5 6 7 8 9 10 11 12 13
[type!=Identifier] -> 0 1 2 4 5 7 8 9 12 13
[left.name=a] -> 2
[test.left.name=a] -> 1
[test.left] -> 1
[test.middle] ->
[test=a] ->
[test.left.name.length] ->
[arguments.length>2] -> 9
[arguments.length>3] ->
[arguments.length>=3] -> 9
[arguments.length<3] ->
[arguments.length<=3] -> 9
[arguments.length<4] -> 9
[arguments.length=3] -> 9
[arguments.length=03] ->
[arguments.length!=3] -> 0 1 2 3 4 5 6 7 8 10 11 12 13
[arguments.length] -> 9
[body.length=1] -> 0 7
[arguments.0.name=a] -> 9
[arguments.1.name=a] ->
[arguments.2.raw] -> 9
[arguments.3] ->
[arguments] -> 9
[arguments=3] ->
[arguments!=3] -> 0 1 2 3 4 5 6 7 8 9 10 11 12 13
[arguments.name] ->
[raw<3] ->
[raw>0] ->
[expression.name=b] -> 5
[expression.type=CallExpression] -> 8
Literal[raw!=1] -> 12 13
:statement -> 1 5 7 8
:declaration ->
:expression -> 2 3 4 6 9 10 11 12 13
:function ->
:not(:expression) -> 0 1 5 7 8
:has(Literal) -> 0 1 2 7 8 9
:statement:not(:has(Literal)) -> 5
:is(Identifier, Literal) -> 3 4 6 10 11 12 13
:matches(.left, .right) -> 3 4
:first-child -> 1 8 11
:last-child -> 1 8 13
:nth-child(2) -> 12
:nth-last-child(3) -> 11
:nth-child(0) ->
:nth-last-child(0) ->
Identifier + Literal -> 12
Literal + Literal -> 13
Identifier ~ Literal -> 12 13
Literal ~ Identifier ->
ExpressionStatement ~ BlockStatement ->
Identifier + ExpressionStatement ->
Identifier:exit -> 3 6 10 11
§ [a, , b, , c, ]; f(...d);
0 Program sourceType script
1 . body ExpressionStatement
2 . . expression ArrayExpression
3 . . . elements Identifier name a
- . . . elements
4 . . . elements Identifier name b
- . . . elements
5 . . . elements Identifier name c
6 . body ExpressionStatement
7 . . expression CallExpression optional no
8 . . . callee Identifier name f
9 . . . arguments SpreadElement
10 . . . . argument Identifier name d
?
Identifier + Identifier ->
Identifier ~ Identifier -> 4 5
[name=c] ~ Identifier ->
[name=b] ~ Identifier -> 5
[name=a] ~ [name=c] -> 5
Identifier ~ Identifier ~ Identifier -> 5
:nth-child(2) -> 6
:nth-child(3) -> 4
:nth-child(4) ->
:nth-child(5) -> 5
:nth-child(6) ->
:nth-last-child(2) -> 1
:nth-last-child(3) -> 4
:nth-last-child(5) -> 3
:last-child -> 5 6 9
:first-child -> 1 3 9
[elements.length=5] -> 2
[elements.length>4] -> 2
[elements.length>5] ->
[elements.1] ->
[elements.1!=x] -> 0 1 2 3 4 5 6 7 8 9 10
[elements.2.name=b] -> 2
[elements.5] ->
[elements.length.length] ->
[expression.elements.0] -> 1
[expression.arguments.0.argument.name=d] -> 6
ExpressionStatement + ExpressionStatement -> 6
ExpressionStatement + ExpressionStatement Identifier -> 8 10
ExpressionStatement ~ * -> 6
:has(SpreadElement) -> 0 6 7
:has(ExpressionStatement + ExpressionStatement) -> 0
:has(Program Identifier) -> 0
:has(Program > Identifier) ->
:has(ArrayExpression > Identifier) -> 0 1 2
:has(ExpressionStatement > ArrayExpression) -> 0 1
:has(ExpressionStatement Identifier) -> 0 1 6
:has(.elements) -> 0 1 2
:has(.expression) -> 0 1 6
:has(.body) -> 0
:has(.body.expression) -> 0
:has(:first-child) -> 0 1 2 6 7
:has(:nth-child(3)) -> 0 1 2
:has(:has(Identifier)) -> 0 1 6 7
:has(Program) ->
:has(Identifier) -> 0 1 2 6 7 9
§ function f(a, b = 1) { return a + b; } async (x) => x; (function* () { yield 1; });
0 Program sourceType script
1 . body FunctionDeclaration async no generator no
2 . . id Identifier name f
3 . . params Identifier name a
4 . . params AssignmentPattern
5 . . . left Identifier name b
6 . . . right Literal raw 1
7 . . body BlockStatement
8 . . . body ReturnStatement
9 . . . . argument BinaryExpression operator +
10 . . . . . left Identifier name a
11 . . . . . right Identifier name b
12 . body ExpressionStatement
13 . . expression ArrowFunctionExpression async yes expression yes
14 . . . params Identifier name x
15 . . . body Identifier name x
16 . body ExpressionStatement
17 . . expression FunctionExpression async no generator yes
18 . . . body BlockStatement
19 . . . . body ExpressionStatement
20 . . . . . expression YieldExpression delegate no
21 . . . . . . argument Literal raw 1
?
:function -> 1 13 17
:function > .params -> 3 4 14
:function > .body -> 7 15 18
:declaration -> 1
:statement -> 1 7 8 12 16 18 19
:expression -> 2 3 5 6 9 10 11 13 14 15 17 20 21
:pattern -> 2 3 4 5 6 9 10 11 13 14 15 17 20 21
.params.left -> 5
.params + .params -> 4
.params ~ AssignmentPattern -> 4
Identifier + * -> 4
[async=true] -> 13
[async=false] -> 1 17
[async!=true] -> 0 1 2 3 4 5 6 7 8 9 10 11 12 14 15 16 17 18 19 20 21
[generator] -> 1 17
[expression=true] -> 13
[id] -> 1
[id.name=f] -> 1
[params.length=2] -> 1
[params.length<2] -> 13 17
[params.length>0] -> 1 13
[params.0.name=x] -> 13
[params.1.left.name=b] -> 1
[body.type=BlockStatement] -> 1 17
[body.body.length=1] -> 1 17
[argument] -> 8 20
ReturnStatement > BinaryExpression > .right -> 11
FunctionDeclaration > BlockStatement > ReturnStatement Identifier -> 10 11
FunctionDeclaration Identifier[name=a] -> 3 10
FunctionDeclaration > Identifier -> 2 3
:function :function ->
:function:has(YieldExpression) -> 17
:function:not(:has(YieldExpression)) -> 1 13
:has(:function > BlockStatement) -> 0 1 16 17
:has(FunctionDeclaration > Identifier) -> 0 1
:not(*) ->
:not(:not(Literal)) -> 6 21
:not(Identifier, Literal, :statement) -> 0 4 9 13 17 20
:is(:function, Literal)[async=true] -> 13
FunctionDeclaration ~ ExpressionStatement -> 12 16
FunctionDeclaration + ExpressionStatement -> 12
FunctionDeclaration + ExpressionStatement + ExpressionStatement -> 16
:first-child > * -> 2 3 4 7 9 20
Program > * > .body -> 7
.body -> 1 7 8 12 15 16 18 19
.body.body -> 7 8 19
.body.body.body -> 7 8 19
.expression.body -> 15 18
§ class A extends B { static m() { new.target; } #p = 1; static { ; } get [k]() {} }
0 Program sourceType module
1 . body ClassDeclaration
2 . . id Identifier name A
3 . . superClass Identifier name B
4 . . body ClassBody
5 . . . body MethodDefinition kind method static yes computed no
6 . . . . key Identifier name m
7 . . . . value FunctionExpression async no generator no
8 . . . . . body BlockStatement
9 . . . . . . body ExpressionStatement
10 . . . . . . . expression MetaProperty
11 . . . . . . . . meta Identifier name new
12 . . . . . . . . property Identifier name target
13 . . . body PropertyDefinition static no computed no
14 . . . . key PrivateIdentifier name p
15 . . . . value Literal raw 1
16 . . . body StaticBlock
17 . . . . body EmptyStatement
18 . . . body MethodDefinition kind get static no computed yes
19 . . . . key Identifier name k
20 . . . . value FunctionExpression async no generator no
21 . . . . . body BlockStatement
?
:expression -> 2 3 6 7 10 15 19 20
:pattern -> 2 3 6 7 10 15 19 20
MetaProperty > :expression ->
MetaProperty > * -> 11 12
:statement -> 1 8 9 17 21
.meta -> 11
.value.body -> 8 21
[static=true] -> 5
[static=false] -> 13 18
[kind] -> 5 18
[key.name=p] -> 13
[superClass] -> 1
PrivateIdentifier[name=p] -> 14
ClassBody > :nth-child(2) -> 13
ClassBody > :nth-last-child(4) -> 5
MethodDefinition ~ MethodDefinition -> 18
MethodDefinition + PropertyDefinition + StaticBlock -> 16
StaticBlock ~ PropertyDefinition ->
:has(:expression) -> 0 1 4 5 7 8 9 13 18
[value.params.length=0] -> 5 18
[sourceType=module] -> 0
§ switch (x) { case 1: a; b; ; break; case "y": case z: default: debugger; }
0 Program sourceType script
1 . body SwitchStatement
2 . . discriminant Identifier name x
3 . . cases SwitchCase
4 . . . test Literal raw 1
5 . . . consequent ExpressionStatement
6 . . . . expression Identifier name a
7 . . . consequent ExpressionStatement
8 . . . . expression Identifier name b
9 . . . consequent EmptyStatement
10 . . . consequent BreakStatement
11 . . cases SwitchCase
12 . . . test Literal raw "y" value y
13 . . cases SwitchCase
14 . . . test Identifier name z
15 . . cases SwitchCase
16 . . . consequent DebuggerStatement
?
SwitchCase:not([test]) -> 15
SwitchCase[test.value=y] -> 11
SwitchCase[consequent.length=0] -> 11 13
SwitchCase[consequent.length!=0] -> 3 15
SwitchCase + SwitchCase -> 11 13 15
SwitchCase ~ SwitchCase + SwitchCase -> 13 15
SwitchCase ~ SwitchCase > .test -> 12 14
SwitchStatement > SwitchCase > * -> 4 5 7 9 10 12 14 16
:nth-last-child(1) -> 1 10 15 16
:nth-last-child(2) -> 9 13
:nth-last-child(4) -> 3 5
:nth-child( 2 ) -> 7 11
:nth-child(4) -> 10 15
ExpressionStatement + EmptyStatement -> 9
ExpressionStatement ~ BreakStatement -> 10
EmptyStatement ~ ExpressionStatement ->
ExpressionStatement + BreakStatement ->
.cases.consequent -> 5 7 9 10 16
SwitchCase:has(DebuggerStatement) -> 15
SwitchCase:has(SwitchCase ExpressionStatement) -> 3
SwitchCase:has(SwitchStatement *) ->
SwitchCase:has(.cases) ->
SwitchCase:has(.consequent) -> 3 15
SwitchCase:has(:not(:first-child)) -> 3 11 13
[cases.0.consequent.3.type=BreakStatement] -> 1
[test.raw='"y"'] -> 11
[label] ->
BreakStatement[label!=x] -> 10
SwitchCase:first-child, SwitchCase:last-child -> 3 15
§ for (const [p, , q = 2] of r) { o.k?.[0]; for (;;) ; }
0 Program sourceType script
1 . body ForOfStatement await no
2 . . left VariableDeclaration kind const
3 . . . declarations VariableDeclarator
4 . . . . id ArrayPattern
5 . . . . . elements Identifier name p
- . . . . . elements
6 . . . . . elements AssignmentPattern
7 . . . . . . left Identifier name q
8 . . . . . . right Literal raw 2
9 . . right Identifier name r
10 . . body BlockStatement
11 . . . body ExpressionStatement
12 . . . . expression ChainExpression
13 . . . . . expression MemberExpression computed yes optional yes
14 . . . . . . object MemberExpression computed no optional no
15 . . . . . . . object Identifier name o
16 . . . . . . . property Identifier name k
17 . . . . . . property Literal raw 0
18 . . . body ForStatement
19 . . . . body EmptyStatement
?
:pattern -> 4 5 6 7 8 9 12 13 14 15 16 17
ForOfStatement > .left Identifier -> 5 7
VariableDeclaration[declarations.0.init] ->
VariableDeclaration[declarations.0.id.type=ArrayPattern] -> 2
[await=false] -> 1
MemberExpression[optional!=true] -> 14
MemberExpression MemberExpression -> 14
MemberExpression > .object -> 14 15
.object.object -> 15
.object.property -> 16
ArrayPattern > :nth-child(3) -> 6
ArrayPattern > :nth-last-child(2) ->
Identifier + AssignmentPattern ->
Identifier ~ AssignmentPattern -> 6
ForStatement[test] ->
ForStatement[init!=1][body] -> 18
:declaration > * -> 3
ForOfStatement > :not(:statement) -> 9
Program ForOfStatement BlockStatement Identifier -> 15 16
Program > BlockStatement Identifier ->
ForOfStatement BlockStatement > Identifier ->
§ import d, { e as s } from "m"; export default class {} export * from "n";
0 Program sourceType module
1 . body ImportDeclaration
2 . . specifiers ImportDefaultSpecifier
3 . . . local Identifier name d
4 . . specifiers ImportSpecifier
5 . . . imported Identifier name e
6 . . . local Identifier name s
7 . . source Literal raw "m" value m
8 . body ExportDefaultDeclaration
9 . . declaration ClassDeclaration
10 . . . body ClassBody
11 . body ExportAllDeclaration
12 . . source Literal raw "n" value n
?
:declaration -> 1 8 9 11
[source.value=m] -> 1
[exported] ->
ImportDefaultSpecifier + ImportSpecifier > .local -> 6
[specifiers.1.local.name='s'] -> 1
ImportDeclaration ~ ExportAllDeclaration -> 11
ImportDeclaration + ExportAllDeclaration ->
.specifiers.local -> 3 6
ClassDeclaration[id] ->
[body.body.length<1] -> 9
:last-child -> 4 11
§ ({ a, b: 1, get c() { return /x/g; }, ["d"]: 10n, ...e }); "use strict";
0 Program sourceType script
1 . body ExpressionStatement
2 . . expression ObjectExpression
3 . . . properties Property kind init method no shorthand yes computed no
4 . . . . key Identifier name a
5 . . . . value Identifier name a
6 . . . properties Property kind init method no shorthand no computed no
7 . . . . key Identifier name b
8 . . . . value Literal raw 1
9 . . . properties Property kind get method no shorthand no computed no
10 . . . . key Identifier name c
11 . . . . value FunctionExpression async no generator no
12 . . . . . body BlockStatement
13 . . . . . . body ReturnStatement
14 . . . . . . . argument Literal raw /x/g regex /x/g
15 . . . properties Property kind init method no shorthand no computed yes
16 . . . . key Literal raw "d" value d
17 . . . . value Literal raw 10n bigint 10n
18 . . . properties SpreadElement
19 . . . . argument Identifier name e
20 . body ExpressionStatement
21 . . expression Literal raw "use␠strict" value use␠strict
?
Property[kind=get] > FunctionExpression -> 11
Property > .key -> 4 7 10 16
Literal[regex] -> 14
Literal[bigint=10n] -> 17
Literal[value] -> 16 21
Literal[value!=d] -> 8 14 17 21
[regex='/x/g'] -> 14
[value='use strict'] -> 21
[properties.4.argument.name=e] -> 2
Property + SpreadElement -> 18
Property:nth-child(3) ~ Property -> 15
SpreadElement ~ Property ->
:function BlockStatement > ReturnStatement > Literal -> 14
§ f`x${y}z`; !true; null; i++; ({ ...h } = i);
0 Program sourceType script
1 . body ExpressionStatement
2 . . expression TaggedTemplateExpression
3 . . . tag Identifier name f
4 . . . quasi TemplateLiteral
5 . . . . quasis TemplateElement raw x tail no
6 . . . . quasis TemplateElement raw z tail yes
7 . . . . expressions Identifier name y
8 . body ExpressionStatement
9 . . expression UnaryExpression operator ! prefix yes
10 . . . argument Literal raw true value yes
11 . body ExpressionStatement
12 . . expression Literal raw null value null
13 . body ExpressionStatement
14 . . expression UpdateExpression operator ++ prefix no
15 . . . argument Identifier name i
16 . body ExpressionStatement
17 . . expression AssignmentExpression operator =
18 . . . left ObjectPattern
19 . . . . properties RestElement
20 . . . . . argument Identifier name h
21 . . . right Identifier name i
?
TemplateElement[tail=true] -> 6
TemplateElement ~ TemplateElement -> 6
TemplateElement ~ Identifier ->
TemplateLiteral > :last-child -> 6 7
TemplateLiteral > :first-child -> 5 7
[value=true] -> 10
[value=null] -> 12
[value!=null][raw] -> 5 6 10
[prefix=false] -> 14
[operator!='!'][operator] -> 14 17
:pattern -> 2 3 4 7 9 10 12 14 15 17 18 20 21
.tag, .quasi.expressions -> 3 7
ExpressionStatement:nth-last-child(2) > UpdateExpression -> 14
Program > :nth-child(5) Identifier -> 20 21"##;
