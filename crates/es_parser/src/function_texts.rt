/// Functions and classes: ECMA-262, 15.
pub const FUNCTION_TEXTS: &str = r##"# 15.1, Parameter Lists
script function f(a,b){} -> FunctionDeclaration(f [a b] BlockStatement([]))
script function f(a,){} -> FunctionDeclaration(f [a] BlockStatement([]))
script function f(a=b,c){} -> FunctionDeclaration(f [AssignmentPattern(a b) c] BlockStatement([]))
script function f([a],{b,c:d}){} -> FunctionDeclaration(f [ArrayPattern([a]) ObjectPattern([Property:init:shorthand(b b) Property:init(c d)])] BlockStatement([]))
script function f([a]=b,{c}=d){} -> FunctionDeclaration(f [AssignmentPattern(ArrayPattern([a]) b) AssignmentPattern(ObjectPattern([Property:init:shorthand(c c)]) d)] BlockStatement([]))
script function f(...a){} -> FunctionDeclaration(f [RestElement(a)] BlockStatement([]))
script function f(a,...[b]){} -> FunctionDeclaration(f [a RestElement(ArrayPattern([b]))] BlockStatement([]))
script function f(...{a}){} -> FunctionDeclaration(f [RestElement(ObjectPattern([Property:init:shorthand(a a)]))] BlockStatement([]))
script function f(a=b=>c,d=(e,g)){} -> FunctionDeclaration(f [AssignmentPattern(a ArrowFunctionExpression:expression([b] c)) AssignmentPattern(d SequenceExpression([e g]))] BlockStatement([]))
script function f(,){} -> Unread 0
script function f(a,,b){} -> Unread 0
script function f(...a,){} -> Unread 0
script function f(...a,b){} -> Unread 0
script function f(...a=b){} -> Unread 0
script function f(a b){} -> Unread 0
script function f(1){} -> Unread 0
script function f(a.b){} -> Unread 0
script function f((a)){} -> Unread 0
script function f(if){} -> Unread 0
# 15.2, Function Definitions
script function f(){} -> FunctionDeclaration(f [] BlockStatement([]))
script function f(){a;return b} -> FunctionDeclaration(f [] BlockStatement([a; ReturnStatement(b)]))
script function f(){function g(){}} -> FunctionDeclaration(f [] BlockStatement([FunctionDeclaration(g [] BlockStatement([]))]))
script function f(){}function g(){} -> FunctionDeclaration(f [] BlockStatement([])) FunctionDeclaration(g [] BlockStatement([]))
script function f(){}a -> FunctionDeclaration(f [] BlockStatement([])) a;
script function f -> Unread 0
script function f() -> Unread 0
script function f(){ -> Unread 0
script function f(){}} -> Unread 14
script function if(){} -> Unread 0
script function let(){} -> Unread 0
script function await(){} -> FunctionDeclaration(await [] BlockStatement([]))
module function await(){} -> Unread 0
script function f(){await} -> FunctionDeclaration(f [] BlockStatement([await;]))
script (function(){}) -> FunctionExpression(_ [] BlockStatement([]));
script (function a(){}) -> FunctionExpression(a [] BlockStatement([]));
script (function(){})() -> CallExpression(FunctionExpression(_ [] BlockStatement([])) []);
script (function(){}()) -> CallExpression(FunctionExpression(_ [] BlockStatement([])) []);
script a=function b(){},c -> SequenceExpression([AssignmentExpression:=(a FunctionExpression(b [] BlockStatement([]))) c]);
script f(function(){}) -> CallExpression(f [FunctionExpression(_ [] BlockStatement([]))]);
script (function if(){}) -> Unread 0
# 15.3, Arrow Function Definitions
script a=>b -> ArrowFunctionExpression:expression([a] b);
script ()=>a -> ArrowFunctionExpression:expression([] a);
script (a)=>b -> ArrowFunctionExpression:expression([a] b);
script (a,b)=>c -> ArrowFunctionExpression:expression([a b] c);
script (a,)=>b -> ArrowFunctionExpression:expression([a] b);
script (...a)=>b -> ArrowFunctionExpression:expression([RestElement(a)] b);
script (a,...b)=>c -> ArrowFunctionExpression:expression([a RestElement(b)] c);
script (a=b)=>c -> ArrowFunctionExpression:expression([AssignmentPattern(a b)] c);
script ({a})=>b -> ArrowFunctionExpression:expression([ObjectPattern([Property:init:shorthand(a a)])] b);
script ([a],{b:c})=>d -> ArrowFunctionExpression:expression([ArrayPattern([a]) ObjectPattern([Property:init(b c)])] d);
script ({a=b})=>c -> ArrowFunctionExpression:expression([ObjectPattern([Property:init:shorthand(a AssignmentPattern(a b))])] c);
script ([a]=b)=>c -> ArrowFunctionExpression:expression([AssignmentPattern(ArrayPattern([a]) b)] c);
script a=>{} -> ArrowFunctionExpression([a] BlockStatement([]));
script a=>{return b} -> ArrowFunctionExpression([a] BlockStatement([ReturnStatement(b)]));
script a=>({}) -> ArrowFunctionExpression:expression([a] ObjectExpression([]));
script a=>[b] -> ArrowFunctionExpression:expression([a] ArrayExpression([b]));
script a=>b=>c -> ArrowFunctionExpression:expression([a] ArrowFunctionExpression:expression([b] c));
script a=>b,c -> SequenceExpression([ArrowFunctionExpression:expression([a] b) c]);
script a=b=>c -> AssignmentExpression:=(a ArrowFunctionExpression:expression([b] c));
script a=>b=c -> ArrowFunctionExpression:expression([a] AssignmentExpression:=(b c));
script a=>b||c -> ArrowFunctionExpression:expression([a] LogicalExpression:||(b c));
script a?b=>c:d -> ConditionalExpression(a ArrowFunctionExpression:expression([b] c) d);
script a=>␊b -> ArrowFunctionExpression:expression([a] b);
script a=>{}␊(b) -> ArrowFunctionExpression([a] BlockStatement([])); b;
script (a=>b)() -> CallExpression(ArrowFunctionExpression:expression([a] b) []);
script (a=>b)=>c -> Unread 0
script [a=>b,c] -> ArrayExpression([ArrowFunctionExpression:expression([a] b) c]);
script await=>a -> ArrowFunctionExpression:expression([await] a);
script (await)=>a -> ArrowFunctionExpression:expression([await] a);
script async=>a -> ArrowFunctionExpression:expression([async] a);
script ()=>await -> ArrowFunctionExpression:expression([] await);
script a␊=>b -> Unread 2
script ()␊=>a -> Unread 0
script (a)␊=>b -> Unread 4
script ()=>{}() -> Unread 0
script ()=>{}.a -> Unread 0
script ()=>{}+a -> Unread 0
script ()=>{}␊.a -> Unread 7
script ()=> -> Unread 0
script (a,,b)=>c -> Unread 0
script (,)=>a -> Unread 0
script ((a))=>b -> Unread 0
script (a.b)=>c -> Unread 0
script (1)=>a -> Unread 0
script 1=>a -> Unread 0
script a()=>b -> Unread 0
script (...a,)=>b -> Unread 0
script (...a,b)=>c -> Unread 0
script (a,...b) -> Unread 0
script (a;b)=>c -> Unread 0
script a||b=>c -> Unread 0
script -a=>b -> Unread 0
script new a=>b -> Unread 0
script yield=>a -> Unread 0
script ({a:1})=>b -> Unread 0
script ({a:b.c})=>d -> Unread 0
script ([a.b])=>c -> Unread 0
script ({a=b}) -> Unread 0
script ()=>{a b} -> Unread 0
# 15.4, Method Definitions, and 15.7, Class Definitions
script class A{} -> ClassDeclaration(A _ ClassBody([]))
script class A extends B{} -> ClassDeclaration(A B ClassBody([]))
script class A extends B.c[d]{} -> ClassDeclaration(A MemberExpression:computed(MemberExpression(B c) d) ClassBody([]))
script class A extends B(){} -> ClassDeclaration(A CallExpression(B []) ClassBody([]))
script class A extends(a,b){} -> ClassDeclaration(A SequenceExpression([a b]) ClassBody([]))
script class A extends class{}{} -> ClassDeclaration(A ClassExpression(_ _ ClassBody([])) ClassBody([]))
script class A extends null{} -> ClassDeclaration(A null=null ClassBody([]))
script class A extends a?.b{} -> ClassDeclaration(A ChainExpression(MemberExpression:optional(a b)) ClassBody([]))
script class A extends{} -> Unread 0
script class A extends a+b{} -> Unread 0
script class A extends a,b{} -> Unread 0
script class A extends ()=>a{} -> Unread 0
script class A extends async()=>a{} -> Unread 0
script class{} -> Unread 0
script class A -> Unread 0
script class A{ -> Unread 0
script class if{} -> Unread 0
script class await{} -> ClassDeclaration(await _ ClassBody([]))
module class await{} -> Unread 0
script (class{}) -> ClassExpression(_ _ ClassBody([]));
script (class A{}) -> ClassExpression(A _ ClassBody([]));
script (class extends A{}) -> ClassExpression(_ A ClassBody([]));
script a=class{}.b -> AssignmentExpression:=(a MemberExpression(ClassExpression(_ _ ClassBody([])) b));
script class A{;} -> ClassDeclaration(A _ ClassBody([]))
script class A{;;a;} -> ClassDeclaration(A _ ClassBody([PropertyDefinition(a _)]))
script class A{a(){}} -> ClassDeclaration(A _ ClassBody([MethodDefinition:method(a FunctionExpression(_ [] BlockStatement([])))]))
script class A{a(b,c=d,...e){}} -> ClassDeclaration(A _ ClassBody([MethodDefinition:method(a FunctionExpression(_ [b AssignmentPattern(c d) RestElement(e)] BlockStatement([])))]))
script class A{a(){};b(){}} -> ClassDeclaration(A _ ClassBody([MethodDefinition:method(a FunctionExpression(_ [] BlockStatement([]))) MethodDefinition:method(b FunctionExpression(_ [] BlockStatement([])))]))
script class A{a(){}b(){}} -> ClassDeclaration(A _ ClassBody([MethodDefinition:method(a FunctionExpression(_ [] BlockStatement([]))) MethodDefinition:method(b FunctionExpression(_ [] BlockStatement([])))]))
script class A{a(){},b(){}} -> Unread 0
script class A{if(){}} -> ClassDeclaration(A _ ClassBody([MethodDefinition:method(if FunctionExpression(_ [] BlockStatement([])))]))
script class A{"a"(){}} -> ClassDeclaration(A _ ClassBody([MethodDefinition:method("a"=a FunctionExpression(_ [] BlockStatement([])))]))
script class A{1(){}} -> ClassDeclaration(A _ ClassBody([MethodDefinition:method(1 FunctionExpression(_ [] BlockStatement([])))]))
script class A{[a](){}} -> ClassDeclaration(A _ ClassBody([MethodDefinition:method:computed(a FunctionExpression(_ [] BlockStatement([])))]))
script class A{[a,b](){}} -> Unread 0
script class A{#a(){}} -> ClassDeclaration(A _ ClassBody([MethodDefinition:method(#a FunctionExpression(_ [] BlockStatement([])))]))
script class A{constructor(){}} -> ClassDeclaration(A _ ClassBody([MethodDefinition:constructor(constructor FunctionExpression(_ [] BlockStatement([])))]))
script class A{"constructor"(){}} -> ClassDeclaration(A _ ClassBody([MethodDefinition:constructor("constructor"=constructor FunctionExpression(_ [] BlockStatement([])))]))
script class A{'constructor'(){}} -> ClassDeclaration(A _ ClassBody([MethodDefinition:constructor('constructor'=constructor FunctionExpression(_ [] BlockStatement([])))]))
script class A{["constructor"](){}} -> ClassDeclaration(A _ ClassBody([MethodDefinition:method:computed("constructor"=constructor FunctionExpression(_ [] BlockStatement([])))]))
script class A{static constructor(){}} -> ClassDeclaration(A _ ClassBody([MethodDefinition:method:static(constructor FunctionExpression(_ [] BlockStatement([])))]))
script class A{get constructor(){}} -> ClassDeclaration(A _ ClassBody([MethodDefinition:get(constructor FunctionExpression(_ [] BlockStatement([])))]))
script class A{async constructor(){}} -> ClassDeclaration(A _ ClassBody([MethodDefinition:method(constructor FunctionExpression:async(_ [] BlockStatement([])))]))
script class A{*constructor(){}} -> ClassDeclaration(A _ ClassBody([MethodDefinition:method(constructor FunctionExpression:generator(_ [] BlockStatement([])))]))
script class A{"\x63onstructor"(){}} -> ClassDeclaration(A _ ClassBody([MethodDefinition:method("\x63onstructor" FunctionExpression(_ [] BlockStatement([])))]))
script class A{get a(){}} -> ClassDeclaration(A _ ClassBody([MethodDefinition:get(a FunctionExpression(_ [] BlockStatement([])))]))
script class A{set a(b){}} -> ClassDeclaration(A _ ClassBody([MethodDefinition:set(a FunctionExpression(_ [b] BlockStatement([])))]))
script class A{set a(...b){}} -> ClassDeclaration(A _ ClassBody([MethodDefinition:set(a FunctionExpression(_ [RestElement(b)] BlockStatement([])))]))
script class A{get #a(){}} -> ClassDeclaration(A _ ClassBody([MethodDefinition:get(#a FunctionExpression(_ [] BlockStatement([])))]))
script class A{get [a](){}} -> ClassDeclaration(A _ ClassBody([MethodDefinition:get:computed(a FunctionExpression(_ [] BlockStatement([])))]))
script class A{get␊a(){}} -> ClassDeclaration(A _ ClassBody([MethodDefinition:get(a FunctionExpression(_ [] BlockStatement([])))]))
script class A{get(){}} -> ClassDeclaration(A _ ClassBody([MethodDefinition:method(get FunctionExpression(_ [] BlockStatement([])))]))
script class A{get} -> ClassDeclaration(A _ ClassBody([PropertyDefinition(get _)]))
script class A{get=a} -> ClassDeclaration(A _ ClassBody([PropertyDefinition(get a)]))
script class A{get;set} -> ClassDeclaration(A _ ClassBody([PropertyDefinition(get _) PropertyDefinition(set _)]))
script class A{get get(){}} -> ClassDeclaration(A _ ClassBody([MethodDefinition:get(get FunctionExpression(_ [] BlockStatement([])))]))
script class A{get if(){}} -> ClassDeclaration(A _ ClassBody([MethodDefinition:get(if FunctionExpression(_ [] BlockStatement([])))]))
script class A{get␊*a(){}} -> ClassDeclaration(A _ ClassBody([PropertyDefinition(get _) MethodDefinition:method(a FunctionExpression:generator(_ [] BlockStatement([])))]))
script class A{set␊a} -> ClassDeclaration(A _ ClassBody([PropertyDefinition(set _) PropertyDefinition(a _)]))
script class A{get a} -> Unread 0
script class A{get *a(){}} -> Unread 0
script class A{async a(){}} -> ClassDeclaration(A _ ClassBody([MethodDefinition:method(a FunctionExpression:async(_ [] BlockStatement([])))]))
script class A{async(){}} -> ClassDeclaration(A _ ClassBody([MethodDefinition:method(async FunctionExpression(_ [] BlockStatement([])))]))
script class A{async} -> ClassDeclaration(A _ ClassBody([PropertyDefinition(async _)]))
script class A{async=a} -> ClassDeclaration(A _ ClassBody([PropertyDefinition(async a)]))
script class A{async␊a(){}} -> ClassDeclaration(A _ ClassBody([PropertyDefinition(async _) MethodDefinition:method(a FunctionExpression(_ [] BlockStatement([])))]))
script class A{async*a(){}} -> ClassDeclaration(A _ ClassBody([MethodDefinition:method(a FunctionExpression:async:generator(_ [] BlockStatement([])))]))
script class A{async #a(){}} -> ClassDeclaration(A _ ClassBody([MethodDefinition:method(#a FunctionExpression:async(_ [] BlockStatement([])))]))
script class A{async get(){}} -> ClassDeclaration(A _ ClassBody([MethodDefinition:method(get FunctionExpression:async(_ [] BlockStatement([])))]))
script class A{async a} -> Unread 0
script class A{async get a(){}} -> Unread 0
script class A{*a(){}} -> ClassDeclaration(A _ ClassBody([MethodDefinition:method(a FunctionExpression:generator(_ [] BlockStatement([])))]))
script class A{*[a](){}} -> ClassDeclaration(A _ ClassBody([MethodDefinition:method:computed(a FunctionExpression:generator(_ [] BlockStatement([])))]))
script class A{*get(){}} -> ClassDeclaration(A _ ClassBody([MethodDefinition:method(get FunctionExpression:generator(_ [] BlockStatement([])))]))
script class A{*a} -> Unread 0
script class A{static a(){}} -> ClassDeclaration(A _ ClassBody([MethodDefinition:method:static(a FunctionExpression(_ [] BlockStatement([])))]))
script class A{static get a(){}} -> ClassDeclaration(A _ ClassBody([MethodDefinition:get:static(a FunctionExpression(_ [] BlockStatement([])))]))
script class A{static set a(b){}} -> ClassDeclaration(A _ ClassBody([MethodDefinition:set:static(a FunctionExpression(_ [b] BlockStatement([])))]))
script class A{static async a(){}} -> ClassDeclaration(A _ ClassBody([MethodDefinition:method:static(a FunctionExpression:async(_ [] BlockStatement([])))]))
script class A{static*a(){}} -> ClassDeclaration(A _ ClassBody([MethodDefinition:method:static(a FunctionExpression:generator(_ [] BlockStatement([])))]))
script class A{static async*a(){}} -> ClassDeclaration(A _ ClassBody([MethodDefinition:method:static(a FunctionExpression:async:generator(_ [] BlockStatement([])))]))
script class A{static #a(){}} -> ClassDeclaration(A _ ClassBody([MethodDefinition:method:static(#a FunctionExpression(_ [] BlockStatement([])))]))
script class A{static [a](){}} -> ClassDeclaration(A _ ClassBody([MethodDefinition:method:static:computed(a FunctionExpression(_ [] BlockStatement([])))]))
script class A{static(){}} -> ClassDeclaration(A _ ClassBody([MethodDefinition:method(static FunctionExpression(_ [] BlockStatement([])))]))
script class A{static static(){}} -> ClassDeclaration(A _ ClassBody([MethodDefinition:method:static(static FunctionExpression(_ [] BlockStatement([])))]))
script class A{get static(){}} -> ClassDeclaration(A _ ClassBody([MethodDefinition:get(static FunctionExpression(_ [] BlockStatement([])))]))
script class A{static get(){}} -> ClassDeclaration(A _ ClassBody([MethodDefinition:method:static(get FunctionExpression(_ [] BlockStatement([])))]))
script class A{static async(){}} -> ClassDeclaration(A _ ClassBody([MethodDefinition:method:static(async FunctionExpression(_ [] BlockStatement([])))]))
script class A{static static static(){}} -> Unread 0
script class A{a b(){}} -> Unread 0
script class A{...a} -> Unread 0
script class A{a:b} -> Unread 0
script class A{,} -> Unread 0
script class A{# a} -> Unread 0
# 15.7, fields and static blocks
script class A{a} -> ClassDeclaration(A _ ClassBody([PropertyDefinition(a _)]))
script class A{a;b} -> ClassDeclaration(A _ ClassBody([PropertyDefinition(a _) PropertyDefinition(b _)]))
script class A{a␊b} -> ClassDeclaration(A _ ClassBody([PropertyDefinition(a _) PropertyDefinition(b _)]))
script class A{a b} -> Unread 0
script class A{a=b} -> ClassDeclaration(A _ ClassBody([PropertyDefinition(a b)]))
script class A{a=b;c=d} -> ClassDeclaration(A _ ClassBody([PropertyDefinition(a b) PropertyDefinition(c d)]))
script class A{a=b␊c} -> ClassDeclaration(A _ ClassBody([PropertyDefinition(a b) PropertyDefinition(c _)]))
script class A{a=b␊[c]} -> ClassDeclaration(A _ ClassBody([PropertyDefinition(a MemberExpression:computed(b c))]))
script class A{a␊[b]} -> ClassDeclaration(A _ ClassBody([PropertyDefinition(a _) PropertyDefinition:computed(b _)]))
script class A{a=b=c} -> ClassDeclaration(A _ ClassBody([PropertyDefinition(a AssignmentExpression:=(b c))]))
script class A{a=b=>c} -> ClassDeclaration(A _ ClassBody([PropertyDefinition(a ArrowFunctionExpression:expression([b] c))]))
script class A{a=b,c} -> Unread 0
script class A{a=b c} -> Unread 0
script class A{a=} -> Unread 0
script class A{#a} -> ClassDeclaration(A _ ClassBody([PropertyDefinition(#a _)]))
script class A{#a=b} -> ClassDeclaration(A _ ClassBody([PropertyDefinition(#a b)]))
script class A{"a"=b} -> ClassDeclaration(A _ ClassBody([PropertyDefinition("a"=a b)]))
script class A{"a"} -> ClassDeclaration(A _ ClassBody([PropertyDefinition("a"=a _)]))
script class A{1=a} -> ClassDeclaration(A _ ClassBody([PropertyDefinition(1 a)]))
script class A{[a]=b} -> ClassDeclaration(A _ ClassBody([PropertyDefinition:computed(a b)]))
script class A{[a]} -> ClassDeclaration(A _ ClassBody([PropertyDefinition:computed(a _)]))
script class A{if=a} -> ClassDeclaration(A _ ClassBody([PropertyDefinition(if a)]))
script class A{if} -> ClassDeclaration(A _ ClassBody([PropertyDefinition(if _)]))
script class A{constructor=a} -> ClassDeclaration(A _ ClassBody([PropertyDefinition(constructor a)]))
script class A{static a} -> ClassDeclaration(A _ ClassBody([PropertyDefinition:static(a _)]))
script class A{static a=b} -> ClassDeclaration(A _ ClassBody([PropertyDefinition:static(a b)]))
script class A{static #a=b} -> ClassDeclaration(A _ ClassBody([PropertyDefinition:static(#a b)]))
script class A{static␊a} -> ClassDeclaration(A _ ClassBody([PropertyDefinition:static(a _)]))
script class A{static} -> ClassDeclaration(A _ ClassBody([PropertyDefinition(static _)]))
script class A{static=a} -> ClassDeclaration(A _ ClassBody([PropertyDefinition(static a)]))
script class A{static;a} -> ClassDeclaration(A _ ClassBody([PropertyDefinition(static _) PropertyDefinition(a _)]))
script class A{static static} -> ClassDeclaration(A _ ClassBody([PropertyDefinition:static(static _)]))
script class A{static get} -> ClassDeclaration(A _ ClassBody([PropertyDefinition:static(get _)]))
script class A{static async=a} -> ClassDeclaration(A _ ClassBody([PropertyDefinition:static(async a)]))
script class A{static "a"} -> ClassDeclaration(A _ ClassBody([PropertyDefinition:static("a"=a _)]))
script class A{static async␊a(){}} -> ClassDeclaration(A _ ClassBody([PropertyDefinition:static(async _) MethodDefinition:method(a FunctionExpression(_ [] BlockStatement([])))]))
script class A{static{}} -> ClassDeclaration(A _ ClassBody([StaticBlock([])]))
script class A{static{a;b}} -> ClassDeclaration(A _ ClassBody([StaticBlock([a; b;])]))
script class A{static{let a;var b;function c(){}}} -> ClassDeclaration(A _ ClassBody([StaticBlock([VariableDeclaration:let([VariableDeclarator(a _)]) VariableDeclaration:var([VariableDeclarator(b _)]) FunctionDeclaration(c [] BlockStatement([]))])]))
script class A{static␊{}} -> ClassDeclaration(A _ ClassBody([StaticBlock([])]))
script class A{static{}static{}} -> ClassDeclaration(A _ ClassBody([StaticBlock([]) StaticBlock([])]))
script class A{static{a b}} -> Unread 0
script class A{static{} -> Unread 0
script class A{{}} -> Unread 0
script class A{a=this.b;#c=super.d} -> ClassDeclaration(A _ ClassBody([PropertyDefinition(a MemberExpression(ThisExpression b)) PropertyDefinition(#c MemberExpression(Super d))]))
script class A{a(){super.b()}c=()=>super.d} -> ClassDeclaration(A _ ClassBody([MethodDefinition:method(a FunctionExpression(_ [] BlockStatement([CallExpression(MemberExpression(Super b) []);]))) PropertyDefinition(c ArrowFunctionExpression:expression([] MemberExpression(Super d)))]))
script class A{#a;b(c){c.#a;c?.#a;c?.d.#a}} -> ClassDeclaration(A _ ClassBody([PropertyDefinition(#a _) MethodDefinition:method(b FunctionExpression(_ [c] BlockStatement([MemberExpression(c #a); ChainExpression(MemberExpression:optional(c #a)); ChainExpression(MemberExpression(MemberExpression:optional(c d) #a));])))]))
script class A{#a;b(c){c.#a=d;c.#a++}} -> ClassDeclaration(A _ ClassBody([PropertyDefinition(#a _) MethodDefinition:method(b FunctionExpression(_ [c] BlockStatement([AssignmentExpression:=(MemberExpression(c #a) d); UpdateExpression:++(MemberExpression(c #a));])))]))
script class A{a=arguments} -> ClassDeclaration(A _ ClassBody([PropertyDefinition(a arguments)]))
# 15.5 and 15.6, Generator Functions
script function*f(){} -> FunctionDeclaration:generator(f [] BlockStatement([]))
script function* f(){yield} -> FunctionDeclaration:generator(f [] BlockStatement([YieldExpression(_);]))
script function*f(){yield a} -> FunctionDeclaration:generator(f [] BlockStatement([YieldExpression(a);]))
script function*f(){yield*a} -> FunctionDeclaration:generator(f [] BlockStatement([YieldExpression:delegate(a);]))
script function*f(){yield␊a} -> FunctionDeclaration:generator(f [] BlockStatement([YieldExpression(_); a;]))
script function*f(){yield yield a} -> FunctionDeclaration:generator(f [] BlockStatement([YieldExpression(YieldExpression(a));]))
script function*f(){yield a,b} -> FunctionDeclaration:generator(f [] BlockStatement([SequenceExpression([YieldExpression(a) b]);]))
script function*f(){(yield)} -> FunctionDeclaration:generator(f [] BlockStatement([YieldExpression(_);]))
script function*f(){[yield,yield]} -> FunctionDeclaration:generator(f [] BlockStatement([ArrayExpression([YieldExpression(_) YieldExpression(_)]);]))
script function*f(){f(yield a,yield)} -> FunctionDeclaration:generator(f [] BlockStatement([CallExpression(f [YieldExpression(a) YieldExpression(_)]);]))
script function*f(){a=yield b} -> FunctionDeclaration:generator(f [] BlockStatement([AssignmentExpression:=(a YieldExpression(b));]))
script function*f(){a=yield} -> FunctionDeclaration:generator(f [] BlockStatement([AssignmentExpression:=(a YieldExpression(_));]))
script function*f(){yield a?b:c} -> FunctionDeclaration:generator(f [] BlockStatement([YieldExpression(ConditionalExpression(a b c));]))
script function*f(){a?yield b:yield c} -> FunctionDeclaration:generator(f [] BlockStatement([ConditionalExpression(a YieldExpression(b) YieldExpression(c));]))
script function*f(){yield/a/} -> FunctionDeclaration:generator(f [] BlockStatement([YieldExpression(/a/:regex);]))
script function*f(){yield[a]} -> FunctionDeclaration:generator(f [] BlockStatement([YieldExpression(ArrayExpression([a]));]))
script function*f(){yield=>a} -> Unread 0
script function*f(){yield ()=>a} -> FunctionDeclaration:generator(f [] BlockStatement([YieldExpression(ArrowFunctionExpression:expression([] a));]))
script function*f(){`${yield}`} -> FunctionDeclaration:generator(f [] BlockStatement([TemplateLiteral([`` ``:tail] [YieldExpression(_)]);]))
script function*f(){({yield:a}).yield} -> FunctionDeclaration:generator(f [] BlockStatement([MemberExpression(ObjectExpression([Property:init(yield a)]) yield);]))
script function*f(){({*yield(){yield a}})} -> FunctionDeclaration:generator(f [] BlockStatement([ObjectExpression([Property:init:method(yield FunctionExpression:generator(_ [] BlockStatement([YieldExpression(a);])))]);]))
script function*f(){yield*} -> Unread 0
script function*f(){yield␊*a} -> Unread 0
script function*f(){yield?a:b} -> Unread 0
script function*f(){yield+a} -> FunctionDeclaration:generator(f [] BlockStatement([YieldExpression(UnaryExpression:+:prefix(a));]))
script function*f(){yield in a} -> Unread 0
script function*f(){a+yield} -> Unread 0
script function*f(){yield=a} -> Unread 0
script function*f(){new yield} -> Unread 0
script function*f(){var yield} -> Unread 0
script function*f(){function g(){yield}} -> Unread 0
script function*f(){()=>yield} -> Unread 0
script function*f(){({a(){yield}})} -> Unread 0
script function*f(){class A{a=yield}} -> Unread 0
script function*f(){class A{[yield](){}}} -> FunctionDeclaration:generator(f [] BlockStatement([ClassDeclaration(A _ ClassBody([MethodDefinition:method:computed(YieldExpression(_) FunctionExpression(_ [] BlockStatement([])))]))]))
script function*f(){class A extends(yield){}} -> FunctionDeclaration:generator(f [] BlockStatement([ClassDeclaration(A YieldExpression(_) ClassBody([]))]))
script function*f(a=yield){} -> FunctionDeclaration:generator(f [AssignmentPattern(a YieldExpression(_))] BlockStatement([]))
script function f(){yield} -> Unread 0
script function*yield(){} -> Unread 0
script (function*(){}) -> FunctionExpression:generator(_ [] BlockStatement([]));
script (function*a(){yield}) -> FunctionExpression:generator(a [] BlockStatement([YieldExpression(_);]));
script ({*a(){yield}}) -> ObjectExpression([Property:init:method(a FunctionExpression:generator(_ [] BlockStatement([YieldExpression(_);])))]);
script ({*a(b=yield){}}) -> ObjectExpression([Property:init:method(a FunctionExpression:generator(_ [AssignmentPattern(b YieldExpression(_))] BlockStatement([])))]);
script function*f(){(a=yield)=>b} -> FunctionDeclaration:generator(f [] BlockStatement([ArrowFunctionExpression:expression([AssignmentPattern(a YieldExpression(_))] b);]))
# 15.8 and 15.6, Async Functions and Async Generators
script async function f(){} -> FunctionDeclaration:async(f [] BlockStatement([]))
script async function f(a,b=c){await a} -> FunctionDeclaration:async(f [a AssignmentPattern(b c)] BlockStatement([AwaitExpression(a);]))
script async function await(){} -> FunctionDeclaration:async(await [] BlockStatement([]))
module async function await(){} -> Unread 0
script async function f(a=await b){} -> FunctionDeclaration:async(f [AssignmentPattern(a AwaitExpression(b))] BlockStatement([]))
script async function f(){var await} -> Unread 0
script async function f(await){} -> Unread 0
script async function f(){await: a} -> Unread 0
script async function f(){await␊a} -> FunctionDeclaration:async(f [] BlockStatement([AwaitExpression(a);]))
script async function f(){await a+await b} -> FunctionDeclaration:async(f [] BlockStatement([BinaryExpression:+(AwaitExpression(a) AwaitExpression(b));]))
script async function f(){(await a).b} -> FunctionDeclaration:async(f [] BlockStatement([MemberExpression(AwaitExpression(a) b);]))
script async function f(){!await a} -> FunctionDeclaration:async(f [] BlockStatement([UnaryExpression:!:prefix(AwaitExpression(a));]))
script async function f(){return await a} -> FunctionDeclaration:async(f [] BlockStatement([ReturnStatement(AwaitExpression(a))]))
script async function f(){a=await b} -> FunctionDeclaration:async(f [] BlockStatement([AssignmentExpression:=(a AwaitExpression(b));]))
script async function f(){await a=b} -> Unread 0
script async function f(){await a++} -> FunctionDeclaration:async(f [] BlockStatement([AwaitExpression(UpdateExpression:++(a));]))
script async function f(){++await a} -> Unread 0
script async function f(){new await a} -> Unread 0
script async function f(){class A extends(await a){}} -> FunctionDeclaration:async(f [] BlockStatement([ClassDeclaration(A AwaitExpression(a) ClassBody([]))]))
script async function f(){class A{[await a](){}}} -> FunctionDeclaration:async(f [] BlockStatement([ClassDeclaration(A _ ClassBody([MethodDefinition:method:computed(AwaitExpression(a) FunctionExpression(_ [] BlockStatement([])))]))]))
script async function f(){class A{a(){await}}} -> FunctionDeclaration:async(f [] BlockStatement([ClassDeclaration(A _ ClassBody([MethodDefinition:method(a FunctionExpression(_ [] BlockStatement([await;])))]))]))
script async␊function f(){await a} -> Unread 6
script (async function(){}) -> FunctionExpression:async(_ [] BlockStatement([]));
script (async function a(){await b}) -> FunctionExpression:async(a [] BlockStatement([AwaitExpression(b);]));
script (async␊function(){}) -> Unread 0
script async function*f(){} -> FunctionDeclaration:async:generator(f [] BlockStatement([]))
script async function*f(){yield await a} -> FunctionDeclaration:async:generator(f [] BlockStatement([YieldExpression(AwaitExpression(a));]))
script async function*f(){await(yield a)} -> FunctionDeclaration:async:generator(f [] BlockStatement([AwaitExpression(YieldExpression(a));]))
script async function*f(){for await(a of b)yield*c} -> FunctionDeclaration:async:generator(f [] BlockStatement([ForOfStatement:await(a b YieldExpression:delegate(c);)]))
script (async function*(){}) -> FunctionExpression:async:generator(_ [] BlockStatement([]));
script ({async a(){await b}}) -> ObjectExpression([Property:init:method(a FunctionExpression:async(_ [] BlockStatement([AwaitExpression(b);])))]);
script ({async*a(){yield await b}}) -> ObjectExpression([Property:init:method(a FunctionExpression:async:generator(_ [] BlockStatement([YieldExpression(AwaitExpression(b));])))]);
script ({async await(){}}) -> ObjectExpression([Property:init:method(await FunctionExpression:async(_ [] BlockStatement([])))]);
script class A{async a(){await b}} -> ClassDeclaration(A _ ClassBody([MethodDefinition:method(a FunctionExpression:async(_ [] BlockStatement([AwaitExpression(b);])))]))
# 15.9, Async Arrow Function Definitions
script async a=>b -> ArrowFunctionExpression:async:expression([a] b);
script async()=>a -> ArrowFunctionExpression:async:expression([] a);
script async(a)=>b -> ArrowFunctionExpression:async:expression([a] b);
script async(a,b)=>c -> ArrowFunctionExpression:async:expression([a b] c);
script async(a,)=>b -> ArrowFunctionExpression:async:expression([a] b);
script async(...a)=>b -> ArrowFunctionExpression:async:expression([RestElement(a)] b);
script async({a=b},[c])=>d -> ArrowFunctionExpression:async:expression([ObjectPattern([Property:init:shorthand(a AssignmentPattern(a b))]) ArrayPattern([c])] d);
script async a=>{await a} -> ArrowFunctionExpression:async([a] BlockStatement([AwaitExpression(a);]));
script async a=>await a -> ArrowFunctionExpression:async:expression([a] AwaitExpression(a));
script async()=>{} -> ArrowFunctionExpression:async([] BlockStatement([]));
script async()=>async()=>await a -> ArrowFunctionExpression:async:expression([] ArrowFunctionExpression:async:expression([] AwaitExpression(a)));
script a=async b=>c -> AssignmentExpression:=(a ArrowFunctionExpression:async:expression([b] c));
script async async=>a -> ArrowFunctionExpression:async:expression([async] a);
script (async a=>b)() -> CallExpression(ArrowFunctionExpression:async:expression([a] b) []);
script async(a=async()=>b)=>c -> ArrowFunctionExpression:async:expression([AssignmentPattern(a ArrowFunctionExpression:async:expression([] b))] c);
script async await=>a -> ArrowFunctionExpression:async:expression([await] a);
script async(await)=>a -> ArrowFunctionExpression:async:expression([await] a);
module async(await)=>a -> Unread 0
module async await=>a -> Unread 0
module async(a=await b)=>c -> ArrowFunctionExpression:async:expression([AssignmentPattern(a AwaitExpression(b))] c);
script async␊a=>b -> async; ArrowFunctionExpression:expression([a] b);
script async␊()=>a -> Unread 0
script async a␊=>b -> Unread 0
script async()␊=>a -> Unread 8
script async a b=>c -> Unread 0
script async(a b)=>c -> Unread 0
script async(a.b)=>c -> Unread 0
script async((a))=>b -> Unread 0
script async(...a,)=>b -> Unread 0
script async 1=>a -> Unread 0
script async function=>a -> Unread 0
script async()=>{}() -> Unread 0
script async.a=>b -> Unread 0
script a.async b=>c -> Unread 0
script async() -> CallExpression(async []);
script async(a,b) -> CallExpression(async [a b]);
script async(...a,b) -> CallExpression(async [SpreadElement(a) b]);
script async(a,) -> CallExpression(async [a]);
script async␊(a) -> CallExpression(async [a]);
script async.a -> MemberExpression(async a);
script async[a] -> MemberExpression:computed(async a);
script async`a` -> TaggedTemplateExpression(async TemplateLiteral([`a`:tail] []));
script async+a -> BinaryExpression:+(async a);
script async=a -> AssignmentExpression:=(async a);
script async?.a -> ChainExpression(MemberExpression:optional(async a));
script async in a -> BinaryExpression:in(async a);
script async({a=b}) -> Unread 0
script async(a)(b) -> CallExpression(CallExpression(async [a]) [b]);
script async(await) -> CallExpression(async [await]);
script new async()=>a -> Unread 0"##;
